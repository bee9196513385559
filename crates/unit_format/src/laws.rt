//! What other units change: nothing.
ghost use Rattle.std.specs.Prelude.{◌≡◌, ℕ, List, Option};
ghost use Rattle.std.specs.List.{All};
ghost use Rattle.unit_format.specs.Alike.{StandApart, AreAlike};
ghost use Rattle.unit_format.specs.Finding.{IsFound};
ghost use Rattle.unit_format.specs.declared.finding.Region.{Region as Found};
ghost use Rattle.unit_format.specs.declared.finding.Unit.{Unit as FoundUnit};

/// Regions that hold the same units of a name give the same file for it, whatever other units they hold.
pub fn others_change_nothing()
    ensures { (name : List ℕ) (a b : List Found) (one other : Option FoundUnit) → All (λ (r : Found). StandApart r.units) a
        → AreAlike name a b → IsFound a name one → IsFound b name other → one ≡ other }
{}
