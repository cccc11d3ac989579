ghost use Rattle.std.specs.Prelude.{ℕ, ◌<◌, ◌≤◌, ◌^◌};
ghost use Rattle.zio_gen.specs.Generated.{script_text};
ghost use Rattle.zio_script.specs.declared.script.Script.{Script};
ghost use Rattle.zio_script.specs.Grammar.{IsScriptOf};

/// What `gen` writes is a script of the whole language, for every seed and number of blocks that it takes.
pub fn generated_scripts_are_accepted()
    ensures { (seed n : ℕ) → seed < 2 ^ 32 → 1 ≤ n → n ≤ 20000 →
        (script : Script) × IsScriptOf (script_text seed n) script }
{}
