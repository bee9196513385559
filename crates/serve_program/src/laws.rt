//! Laws of what an engine was asked for.
ghost use Rattle.std.specs.Prelude.{◌++◌, ℕ, List, length};
ghost use Rattle.edge_io.specs.Sink.{Taking};
ghost use Rattle.edge_io.specs.Source.{Given};
ghost use Rattle.mount_model.specs.State.{State};
ghost use Rattle.script_lang.specs.declared.line.Line.{Line};
ghost use Rattle.script_lang.specs.declared.script.Numbered.{Numbered};
ghost use Rattle.script_lang.specs.Ranges.{FitsScript};
ghost use Rattle.serve_core.specs.declared.client.Client.{Client};
ghost use Rattle.serve_core.specs.Serving.{script_of};
ghost use Rattle.serve_program.specs.declared.exchange.Stop.{Stop};
ghost use Rattle.serve_program.specs.Closing.{closings};
ghost use Rattle.serve_program.specs.Exchange.{ExchangeEnds};
ghost use Rattle.serve_program.specs.Words.{actors_on};

/// A law: the script of what was asked for, with the closings behind it, is in its ranges. So the laws of plays hold of its lines.
pub fn a_served_script_fits()
    ensures { (host : ℕ) (start end : State) (given given_after : Given) (taking taking_after : Taking) (stop : Stop) (asked : List Numbered) (lines : List Line) (clients : List Client)
        → ExchangeEnds (actors_on host) start given taking stop asked lines clients end given_after taking_after → FitsScript (script_of (actors_on host) (asked ++ closings (length (actors_on host)))) }
{}
