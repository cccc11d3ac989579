ghost use Rattle.std.specs.Prelude.{ℕ, List};
ghost use Rattle.zio_script.specs.declared.script.Script.{Script};
ghost use Rattle.zio_script.specs.Grammar.{IsScriptOf};
ghost use Rattle.zio_command.specs.Tops.{IsLawfulPool};

/// In a script that is accepted each top has one of the units and one to four leaves, no leaf stands twice, there are
/// at most 8 tops, and the ranges of the fault rows fit.
pub fn accepted_scripts_have_lawful_pools()
    ensures { (text : List ℕ) (script : Script) →
        IsScriptOf text script → IsLawfulPool script }
{}
