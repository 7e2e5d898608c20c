//! What is true of the lines of a range, of a step, and of the steps of a history.
ghost use Rattle.std.specs.Prelude.{◌≡◌, ℕ, Bool, true, false, List, Some, IsTrue, drop, length, option_and_then, slice_get};
ghost use Rattle.std.specs.List.{list_all, list_any};
ghost use Rattle.scm_types.specs.Keys.{has_key};
ghost use Rattle.scm_types.specs.declared.file.File.{File};
ghost use Rattle.scm_types.specs.declared.keys.LineKey.{LineKey};
ghost use Rattle.scm_types.specs.declared.keys.SelectionKey.{SelectionKey};
ghost use Rattle.scm_types.specs.declared.keys.SelectionKey.TheVariants.{Line};
ghost use Rattle.scm_selection.specs.Toggle.{line_mark, with_all_inverted, with_all_set, with_key_toggled, with_line_alone_inverted, with_line_toggled};
ghost use Rattle.scm_front_items.specs.Ranges.{is_mode_section, lines_between, marking};
ghost use Rattle.scm_front_items.specs.Runs.{marks_of_files, marks_with};
ghost use Rattle.scm_front_items.specs.Steps.{changed_step, is_file_within, runs_now, runs_of_files, runs_of_key, runs_of_range};
ghost use Rattle.scm_front_items.specs.Targets.{after_deeds, is_key_as, key_of};
ghost use Rattle.scm_front_items.specs.declared.targets.Deed.{Deed};
ghost use Rattle.scm_front_items.specs.declared.runs.Step.{Step};
ghost use Rattle.scm_front_items.specs.Histories.{bounded, fits};

/// Proves which marks a range sets.
///
/// Each line of the range has the mark that it is to have, and each other changed line the mark that it had.
/// In a file without a mode section a toggle of a line changes no other mark.
///
/// This is a law: the function does nothing, and is there for its contract.
pub fn ranges_set_lines()
    ensures set { (files : List File) (a b : SelectionKey) (mark : Bool) (line : LineKey)
        → line.commit_idx ≡ 0 → has_key (lines_between a b files) (Line line) ≡ true
        → is_key_as (after_deeds files (marking mark (lines_between a b files))) mark (Line line)
        ≡ true }
    ensures kept { (files : List File) (a b : SelectionKey) (mark old : Bool) (line : LineKey)
        → line.commit_idx ≡ 0 → has_key (lines_between a b files) (Line line) ≡ false
        → is_key_as (after_deeds files (marking mark (lines_between a b files))) old (Line line)
        ≡ is_key_as files old (Line line) }
    // the rules of a toggle speak of mode sections alone
    ensures alone { (file : File) (section line : ℕ) (mark : Bool)
        → list_any is_mode_section file.sections ≡ false
        → option_and_then (line_mark line) (slice_get file.sections section) ≡ Some mark
        → with_line_toggled section line file ≡ with_line_alone_inverted section line file }
{}

/// Proves that a step has the marks before an action.
///
/// The runs are taken before the action, and the step of those that changed after it. Written over the
/// marks after the action, the step makes all marks of the state what they were before it. The runs of a
/// key are enough for a toggle of the key, with the repair of its file. So for each action whatever it
/// changes is in its step.
///
/// This is a law: the function does nothing, and is there for its contract.
pub fn steps_restore_marks()
    // a toggle of an item
    ensures toggle { (files : List File) (key : SelectionKey)
        → marks_with (changed_step (with_key_toggled key files) (runs_of_key files key))
        (marks_of_files (with_key_toggled key files)) ≡ marks_of_files files }
    // an inversion of all marks
    ensures inverted { (files : List File) → marks_with (changed_step (with_all_inverted files)
        (runs_of_files 0 (length files) files)) (marks_of_files (with_all_inverted files))
        ≡ marks_of_files files }
    // one mark for all
    ensures set { (files : List File) → marks_with (changed_step (with_all_set files)
        (runs_of_files 0 (length files) files)) (marks_of_files (with_all_set files))
        ≡ marks_of_files files }
    // deeds in some files
    ensures deeds { (files : List File) (deeds : List Deed) (first last : ℕ)
        → list_all (λ (d : Deed). is_file_within first last (key_of d)) deeds ≡ true
        → marks_with (changed_step (after_deeds files deeds) (runs_of_files first last files))
        (marks_of_files (after_deeds files deeds)) ≡ marks_of_files files }
    // the marks of a range
    ensures range { (files : List File) (a b : SelectionKey) (mark : Bool)
        → marks_with (changed_step (after_deeds files (marking mark (lines_between a b files)))
        (runs_of_range a b files))
        (marks_of_files (after_deeds files (marking mark (lines_between a b files))))
        ≡ marks_of_files files }
    // and a step that is written over marks can be taken back: so a redo leads to the marks before an undo
    ensures back { (files : List File) (step : Step)
        → marks_with (record step { runs = runs_now files step.runs })
        (marks_with step (marks_of_files files)) ≡ marks_of_files files }
{}

/// Proves which steps a history keeps.
///
/// They are within the bounds, and are the newest ones: all of them if all are within the bounds.
///
/// This is a law: the function does nothing, and is there for its contract.
pub fn histories_are_bounded()
    ensures fits { (steps : List Step) → IsTrue (fits (bounded steps)) }
    ensures newest { (steps : List Step) → (n : ℕ) × (bounded steps ≡ drop n steps) }
    ensures all { (steps : List Step) → IsTrue (fits steps) → bounded steps ≡ steps }
{}
