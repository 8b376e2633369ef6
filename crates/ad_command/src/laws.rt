//! Laws of the command.

ghost use Rattle.std.specs.Prelude.{◌≡◌, ◌<◌, ◌≤◌, ℕ, List, [], ◌∷◌, ◌++◌, length, map, codes, Result, None, Some, Ok, Err};
ghost use Rattle.ad_base.specs.declared.image.Image.{Image};
ghost use Rattle.ad_generator.specs.Generated.{built_named, generated_script};
ghost use Rattle.ad_link.specs.declared.refusal.LinkRefusal.{LinkRefusal};
ghost use Rattle.ad_link.specs.Plan.{IsPlan, Planned, fixed_pages};
ghost use Rattle.ad_reloc.specs.Image.{IsImage};
ghost use Rattle.ad_lines.specs.declared.ready.ReadyStep.{ReadyStep};
ghost use Rattle.ad_lines.specs.Ready.{ready_steps};
ghost use Rattle.ad_script.specs.declared.script.Load.{Load};
ghost use Rattle.ad_script.specs.declared.script.Script.{Script};
ghost use Rattle.ad_script.specs.declared.refusal.Cause.{Cause};
ghost use Rattle.ad_script.specs.declared.refusal.Cause.TheVariants.{Word};
ghost use Rattle.ad_script.specs.declared.refusal.ScriptRefusal.TheVariants.{At};
ghost use Rattle.ad_script.specs.Script.{script_of};
ghost use Rattle.ad_command.specs.Chain.{Gives};
ghost use Rattle.ad_command.specs.Command.{Beside, Generated, Lines, Predicted, Shown, Work, command, shown_at};
ghost use Rattle.ad_command.specs.Loading.{AreLinked};
ghost use Rattle.ad_command.specs.Refusals.{AreOnScript, IsRefusedLoad, IsRefusedShown, IsScriptIn};
ghost use Rattle.ad_command.specs.Trouble.{refused_module};
ghost use Rattle.ad_words.specs.Words.{Gen, Predict, Run, Seq, Show, command_of};

use crate::trouble::Trouble;
use ad_base::FILE_BYTES;
use ad_generator::{law_files, law_images, law_plans, law_script};
use ad_words::law_in_range;

/// The first refusal ends the chain of a command, whatever the files hold, and nothing behind it is asked for. Words of no command
/// come to 'usage'. With those of `run`, `seq` or `predict` the file of the script is asked for, which may be too long, or has a
/// first line that is refused, with its first cause; then, in order, the file of each module, which may be too long, or which the
/// link refuses before or after its immovable part has a place; at last a line may call an export that its module hasn't. With
/// those of `show` the one file is asked for, which may be too long, or which the link refuses.
pub fn law_first_refusal()
    ensures words { (files : List ℕ → List ℕ) (words : List (List ℕ)) → command_of words ≡ None → Gives files (command words) [] (Err Trouble.Usage) }
    ensures large_script { (files : List ℕ → List ℕ) (words : List (List ℕ)) (operand : List ℕ) (seed : ℕ)
        → AreOnScript words operand seed → FILE_BYTES < length (files operand)
        → Gives files (command words) (operand ∷ []) (Err (Trouble.TooLarge operand)) }
    ensures script { (files : List ℕ → List ℕ) (words : List (List ℕ)) (operand : List ℕ) (seed line : ℕ) (cause : Cause)
        → AreOnScript words operand seed → length (files operand) ≤ FILE_BYTES → script_of (files operand) ≡ Err (At line cause)
        → Gives files (command words) (operand ∷ []) (Err (Trouble.Script line cause)) }
    ensures large_module { (files : List ℕ → List ℕ) (words : List (List ℕ)) (operand : List ℕ) (seed : ℕ) (s : Script)
        (linked : List Load) (l : Load) (more : List Load) (images : List Image)
        → AreOnScript words operand seed → IsScriptIn files operand s
        → s.loads ≡ linked ++ l ∷ more → AreLinked files seed s.workers [] linked images → FILE_BYTES < length (files l.file)
        → Gives files (command words) (operand ∷ map (λ x. x.file) linked ++ l.file ∷ []) (Err (Trouble.TooLarge l.file)) }
    ensures module { (files : List ℕ → List ℕ) (words : List (List ℕ)) (operand : List ℕ) (seed : ℕ) (s : Script)
        (linked : List Load) (l : Load) (more : List Load) (images : List Image) (r : LinkRefusal)
        → AreOnScript words operand seed → IsScriptIn files operand s
        → s.loads ≡ linked ++ l ∷ more → AreLinked files seed s.workers [] linked images → IsRefusedLoad files seed s.workers images l r
        → Gives files (command words) (operand ∷ map (λ x. x.file) linked ++ l.file ∷ []) (Err (refused_module l.file r)) }
    ensures export { (files : List ℕ → List ℕ) (words : List (List ℕ)) (operand : List ℕ) (seed : ℕ) (s : Script) (images : List Image) (line : ℕ)
        → AreOnScript words operand seed → IsScriptIn files operand s
        → AreLinked files seed s.workers [] s.loads images → ready_steps images s.steps ≡ Err line
        → Gives files (command words) (operand ∷ map (λ x. x.file) s.loads) (Err (Trouble.NoExport line)) }
    ensures large_shown { (files : List ℕ → List ℕ) (words : List (List ℕ)) (operand : List ℕ)
        → command_of words ≡ Some (Show operand) → FILE_BYTES < length (files operand)
        → Gives files (command words) (operand ∷ []) (Err (Trouble.TooLarge operand)) }
    ensures shown { (files : List ℕ → List ℕ) (words : List (List ℕ)) (operand : List ℕ) (r : LinkRefusal)
        → command_of words ≡ Some (Show operand) → IsRefusedShown files operand r
        → Gives files (command words) (operand ∷ []) (Err (refused_module operand r)) }
{}

/// Worked chains: words of no command, a command without an operand, `run` without one, more slots than a table may have, a script
/// of no lines that would be built, a word that begins with `-` and is no option, and a script of the line `x`.
pub fn law_worked_chains()
    ensures task { (files : List ℕ → List ℕ) → Gives files (command (codes "none" ∷ codes "s" ∷ [])) [] (Err Trouble.Usage) }
    ensures operand { (files : List ℕ → List ℕ) → Gives files (command (codes "predict" ∷ [])) [] (Err Trouble.Usage) }
    ensures no_script { (files : List ℕ → List ℕ) → Gives files (command (codes "run" ∷ [])) [] (Err Trouble.Usage) }
    ensures slots { (files : List ℕ → List ℕ) → Gives files (command (codes "run" ∷ codes "s" ∷ codes "--slots=17" ∷ [])) [] (Err Trouble.Usage) }
    ensures lines { (files : List ℕ → List ℕ) → Gives files (command (codes "gen" ∷ codes "0" ∷ [])) [] (Err Trouble.Usage) }
    ensures other_option { (files : List ℕ → List ℕ) → Gives files (command (codes "seq" ∷ codes "-s" ∷ [])) [] (Err Trouble.Usage) }
    ensures script { (files : List ℕ → List ℕ) → files (codes "s") ≡ codes "x\n"
        → Gives files (command (codes "seq" ∷ codes "s" ∷ [])) (codes "s" ∷ []) (Err (Trouble.Script 1 Word)) }
{}

/// Over files of the same bytes the chain of a command has one answer, and asks for the same names.
pub fn law_one_answer()
    ensures { (files : List ℕ → List ℕ) (words names more : List (List ℕ)) (due other : Result Work Trouble)
        → Gives files (command words) names due → Gives files (command words) more other
        → (names ≡ more) × (due ≡ other) }
{}

/// Over all files the chain of a command has an answer, whatever its words.
pub fn law_some_answer()
    ensures { (files : List ℕ → List ℕ) (words : List (List ℕ))
        → (names : List (List ℕ)) × (end : Result Work Trouble) × Gives files (command words) names end }
{}

/// The chain of right words is done, where the script's file and the files of the modules that it loads aren't too long,
/// no line of the script is refused, the modules are linked, and each call finds its export. It asks for these files, in order, and
/// its work is to run the script's lines on those modules, with their parts at the places that the seed draws, one after another or
/// with the calls beside the moves, or to predict its calls; or to list the one module that is shown. Right words of `gen` are done whatever the files are, and ask for none: the
/// work is to run the lines of the built script on the built modules.
pub fn law_right_commands_are_done()
    ensures run { (files : List ℕ → List ℕ) (words : List (List ℕ)) (operand : List ℕ) (seed fuel slots frames : ℕ) (s : Script) (images : List Image) (steps : List ReadyStep)
        → command_of words ≡ Some (Run operand seed fuel slots frames) → length (files operand) ≤ FILE_BYTES → script_of (files operand) ≡ Ok s
        → AreLinked files seed s.workers [] s.loads images → ready_steps images s.steps ≡ Ok steps
        → Gives files (command words) (operand ∷ map (λ l. l.file) s.loads)
        (Ok (Beside slots frames (record { seed = seed; fuel = fuel; script = s; images = images; steps = steps }))) }
    ensures seq { (files : List ℕ → List ℕ) (words : List (List ℕ)) (operand : List ℕ) (seed fuel : ℕ) (s : Script) (images : List Image) (steps : List ReadyStep)
        → command_of words ≡ Some (Seq operand seed fuel) → length (files operand) ≤ FILE_BYTES → script_of (files operand) ≡ Ok s
        → AreLinked files seed s.workers [] s.loads images → ready_steps images s.steps ≡ Ok steps
        → Gives files (command words) (operand ∷ map (λ l. l.file) s.loads)
        (Ok (Lines (record { seed = seed; fuel = fuel; script = s; images = images; steps = steps }))) }
    ensures predict { (files : List ℕ → List ℕ) (words : List (List ℕ)) (operand : List ℕ) (seed fuel : ℕ) (s : Script) (images : List Image) (steps : List ReadyStep)
        → command_of words ≡ Some (Predict operand seed fuel) → length (files operand) ≤ FILE_BYTES → script_of (files operand) ≡ Ok s
        → AreLinked files seed s.workers [] s.loads images → ready_steps images s.steps ≡ Ok steps
        → Gives files (command words) (operand ∷ map (λ l. l.file) s.loads)
        (Ok (Predicted (record { seed = seed; fuel = fuel; script = s; images = images; steps = steps }))) }
    ensures show { (files : List ℕ → List ℕ) (words : List (List ℕ)) (operand : List ℕ) (p : Planned) (i : Image)
        → command_of words ≡ Some (Show operand) → length (files operand) ≤ FILE_BYTES → IsPlan (files operand) p
        → IsImage p.object p.layout p.tables (shown_at (fixed_pages p.layout.sizes)) i
        → Gives files (command words) (operand ∷ []) (Ok (Shown i)) }
    ensures built { (files : List ℕ → List ℕ) (words : List (List ℕ)) (number seed fuel : ℕ) → command_of words ≡ Some (Gen number seed fuel)
        → (images : List Image) × (steps : List ReadyStep) × AreLinked built_named seed (generated_script number).workers [] (generated_script number).loads images
        × (ready_steps images (generated_script number).steps ≡ Ok steps)
        × Gives files (command words) [] (Ok (Generated number (record { seed = seed; fuel = fuel; script = generated_script number; images = images; steps = steps }))) }
{
    law_in_range();
    law_files();
    law_plans();
    law_images();
    law_script();
}
