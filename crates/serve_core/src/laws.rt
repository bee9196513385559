//! Laws of what was served.
ghost use Rattle.std.specs.Prelude.{◌∷◌, ◌++◌, [], List};
ghost use Rattle.mount_model.specs.State.{State};
ghost use Rattle.script_lang.specs.declared.line.Line.{Line};
ghost use Rattle.script_lang.specs.declared.script.ActorDecl.{ActorDecl};
ghost use Rattle.script_lang.specs.declared.script.Numbered.{Numbered};
ghost use Rattle.run_core.specs.Play.{IsPlay};
ghost use Rattle.run_core.specs.Breaking.{IsPlayBroken};
ghost use Rattle.serve_core.specs.declared.client.Client.{Client};
ghost use Rattle.serve_core.specs.Serving.{AreNew, HasServed, Serves, ServingBreaks, script_of};

/// A law: new clients have served nothing; and behind what was served, a request that is served is served too.
pub fn one_request_more_is_served()
    ensures none { (declared : List ActorDecl) (clients : List Client) (start : State) → AreNew declared clients → HasServed declared start [] [] clients start }
    ensures more { (declared : List ActorDecl) (start now end : State) (asked : List Numbered) (one : Numbered) (lines : List Line) (line : Line) (old new : List Client)
        → HasServed declared start asked lines old now → Serves one old now line new end → HasServed declared start (asked ++ one ∷ []) (lines ++ line ∷ []) new end }
{}

/// A law: the requests that were served, and their lines, are a play of the script in which each request is a phase by itself.
pub fn served_requests_are_a_play()
    ensures { (declared : List ActorDecl) (start now : State) (asked : List Numbered) (lines : List Line) (clients : List Client)
        → HasServed declared start asked lines clients now → IsPlay (script_of declared asked) start lines now }
{}

/// A law: behind what was served, a request that was broken off is a play of that script which was broken off.
pub fn unfinished_requests_are_a_broken_play()
    ensures { (declared : List ActorDecl) (start now end : State) (asked : List Numbered) (one : Numbered) (lines : List Line) (clients : List Client)
        → HasServed declared start asked lines clients now → ServingBreaks one clients now end → IsPlayBroken (script_of declared (asked ++ one ∷ [])) start end }
{}
