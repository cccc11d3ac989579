ghost use Rattle.std.specs.Prelude.{◌≡◌, ℕ, List, []};
ghost use Rattle.std.specs.List.{AllByRecursion};
ghost use Rattle.zio_script.specs.declared.script.Script.{Script};
ghost use Rattle.zio_script.specs.Accepted.{AreRising, IsOrderlyBatch, batches_of};
ghost use Rattle.zio_script.specs.Grammar.{IsScriptOf};
ghost use Rattle.zio_script.specs.Requests.{requests_of};
ghost use Rattle.zio_script.specs.Whys.{open_batch, tells_reads_apart};

/// In a script that is accepted numbers rise, each request stands in a batch that is ended, and in each batch words are
/// within their ranges, a block is named once or by reads that no fault row tells apart, parents stand before their
/// children and may have them, a claim stands alone, and depths, numbers of children and sizes with their pointers are
/// within the limits.
pub fn accepted_scripts_are_orderly()
    ensures rising { (text : List ℕ) (script : Script) →
        IsScriptOf text script → AreRising (requests_of script.items) }
    ensures batches { (text : List ℕ) (script : Script) →
        IsScriptOf text script →
        AllByRecursion (IsOrderlyBatch (tells_reads_apart script)) (batches_of script.items) }
    ensures ended { (text : List ℕ) (script : Script) →
        IsScriptOf text script → open_batch script ≡ [] }
{}
