//! Laws about what the top call says, each a public function with an empty body, whose promise is the law.

ghost use Rattle.std.specs.Prelude.{◌≡◌, ◌≢◌, ◌⊎◌, ℕ, true, false, ◌^◌, ◌<◌, ◌≤◌, Bool, List, [], ◌∷◌, ◌++◌, All, length, map, take, Some, None, Ok, codes, find};
ghost use Rattle.ms_io.specs.{Counts.{Rose}, Reading.{Holdings}};
ghost use Rattle.ms_ir.specs.{declared.syntax.Module.{Module}, Instructions.{NoMarks}, ThreadCalls.{is_threaded}};
ghost use Rattle.ms_ir.specs.declared.forms.Form.TheVariants.{Plain};
ghost use Rattle.ms_runs.specs.declared.runs.End.TheVariants.{Reported};
ghost use Rattle.ms_runs.specs.{declared.runs.RunResult.{RunResult}, declared.runs.Setup.{Setup}, Calls.{shadow_end_calls, SameCalls}, Faithful.{Fair, Faithful}, Once.{firsts}, Shadow.{shadow}};
ghost use Rattle.ms_runtime.specs.declared.runs.ToldRun.{ToldRun};
ghost use Rattle.ms_corpus.specs.Wanted.{shadow_wanted, silent};
ghost use Rattle.ms_runs_fills_laws.specs.{Checked.{HoldsUnderFills}, Once.{each_time}};
ghost use Rattle.ms_runs_laws.specs.Places.{uses_at};
ghost use Rattle.ms_check_valid.specs.{Formed.{Formed}, Refusals.{Fault}, Valid.{Valid}};
ghost use Rattle.ms_text_grammar.specs.LayoutModules.{written};
ghost use Rattle.ms_text_laws.specs.Fits.{FitsText};
ghost use Rattle.ms_pass_form_laws.specs.Elided.{IsElided};
ghost use Rattle.ms_top.specs.{declared.output.Output.{Output}, Answered.{AreHeld, IsTaken, IsDoneStatus, Begins}};
ghost use Rattle.ms_top.specs.Added.{with_locations, without_places, without_told_calls, without_lines, without_any_lines, CorpusAdds, telling, without_calls, without_any_calls, CorpusTells};
ghost use Rattle.ms_top.specs.{Command.{files_of, form_of, input_limit, only_input, setup_of, wanted_of}, Explained.{calls_before, no_report, shortened}};
ghost use Rattle.ms_top.specs.Files.{Counted, CanRead, Whole};
ghost use Rattle.ms_top.specs.Promised.{CorpusShown, NothingRan, SchedulesShown, ShadowShown, ThreadsRefused, ShowsWay, WayShown};
ghost use Rattle.ms_top.specs.{Runs.{shadow_told_under, shadow_under, shadow_places_under, CallsHoldUnder, HoldsUnder}, Instrumented.{IsInstrumented}};
ghost use Rattle.ms_top.specs.Lines.{AreLines, fault_text_with};
ghost use Rattle.ms_top.specs.Said.{IsAnswer, IsAnswerToCommand, IsAnswerOfGen, IsAnswerToText, IsAnswerToValid, DifferInPath, answer_of, answer_of_result, answer_of_explained, answer_of_results, run_text, says, status_of};
ghost use Rattle.ms_top.specs.Written.{IsLimitRefusal, RunsAlike};
ghost use Rattle.ms_words.specs.declared.commands.Command.{Command};
ghost use Rattle.ms_words.specs.declared.commands.Command.TheVariants.{Instrument, Run, Check, CheckSchedules, Explain, Corpus, Gen, Help, Version};
ghost use Rattle.ms_words.specs.{declared.commands.Options.{Options}, Limits.{RunsWithinLimits, SchedulesWithinLimits, IsWithinLimits}};
ghost use Rattle.ms_words.specs.{Reading.{same}, Table.{commands, command_word, topics}, Usage.{usage, version_line}};
ghost use Rattle.ms_words.specs.Words.{asks, command_of, defaults};
ghost use Rattle.ms_where_places.specs.Indented.{unindented};
ghost use Rattle.ms_report.specs.{FaultTexts.{fault_text}, RefusalTexts.{threads_text}, ReportTexts.{report_text_of}};
ghost use Rattle.ms_report.specs.{RunTexts.{closing_of}, SummaryTexts.{summary_of}, WithLines.{Lines, no_lines}};
ghost use Rattle.ms_report.specs.{Uncalled.{uncalled}, WordsTexts.{words_text}};
ghost use Rattle.ms_gen.specs.Generator.{generated};
ghost use Rattle.ms_text_grammar.specs.Texts.{Reads};
ghost use Rattle.ms_threads.specs.Faithful.{IsSchedule};
ghost use Rattle.ms_top.specs.Statuses as statuses;

use crate::passes::Pass;
use ms_trail_laws::ways::moves_read_poison;

/// What is to be said is one answer, but where memory runs out, and for the path that shows that a use of a value isn't
/// defined: of a module's text, and of commands and of words where the files are told and no fault of theirs was counted.
pub fn law_one_answer()
    ensures text { (command : Command) (inputs : List (List ℕ)) (text : List ℕ) (a b : Output)
        → IsAnswerToText IsInstrumented command inputs text a → IsAnswerToText IsInstrumented command inputs text b → (a ≡ b) ⊎ DifferInPath a b }
    ensures commands { (c : Counted) (files : Holdings) (command : Command) (a b : Output) → c.told ≡ Some files → (Rose c.faults c.faults_after → ⊥)
        → IsAnswerToCommand IsInstrumented c command a → IsAnswerToCommand IsInstrumented c command b → (a ≡ b) ⊎ DifferInPath a b }
    ensures words { (c : Counted) (files : Holdings) (words : List (List ℕ)) (a b : Output) → c.told ≡ Some files → (Rose c.faults c.faults_after → ⊥)
        → IsAnswer IsInstrumented c words a → IsAnswer IsInstrumented c words b → (a ≡ b) ⊎ DifferInPath a b }
{}

/// What is said of a question about the program itself is the usage, or the line with the version, and of a first word that
/// is neither a question nor a command the line `words: UnknownCommand at 0`, whatever words follow.
pub fn law_questions_are_answered()
    ensures help { (c : Counted) (words : List (List ℕ)) (a : Output) → command_of words ≡ Ok Help → IsAnswer IsInstrumented c words a → a ≡ answer_of statuses.done usage [] }
    ensures version { (c : Counted) (words : List (List ℕ)) (a : Output) → command_of words ≡ Ok Version → IsAnswer IsInstrumented c words a → a ≡ answer_of statuses.done version_line [] }
    ensures unknown { (c : Counted) (word : List ℕ) (rest : List (List ℕ)) (a : Output) → find (asks word) topics ≡ None → find (λ n. same word (command_word n)) commands ≡ None
        → IsAnswer IsInstrumented c (word ∷ rest) a → a ≡ says statuses.bad_words (words_text (codes "UnknownCommand") 0) }
{}

/// What is said of a checked module is its shadow run with the verdict, where the setup is fair, as those of options within the
/// limits are with an input of bytes that is within its limit; of one with threads that under the schedule of the options. Of a
/// generated one that is run, which has no threads, it is the summary of its shadow run with the default options, whose setup is
/// fair: no input, the fill a5, ten million steps, one report, the schedule 00. A clean verdict, and a first report where no blind use was counted, with its calls, hold under
/// every fill, with threads under the same schedule; of two schedules nothing is said. The places of blind uses count as many
/// uses as the run has. Without threads a run that reports each use once has of the reports of the run that reports each time, with a limit
/// that these don't reach, the first of each use, in order, as many as its own limit allows.
pub fn law_checks_show_the_shadow_run()
    ensures shadow { (under : Lines) (file : List ℕ) (inputs : List (List ℕ)) (o : Options) (m : Module) (a : Output) → let s = setup_of o (only_input inputs) in Fair s → IsSchedule o.schedule
        → IsAnswerToValid IsInstrumented under (Check file o) inputs m a → a ≡ answer_of_result under true m (shadow_told_under (wanted_of o) (is_threaded m) m s o.schedule) }
    ensures under_fills { (under : Lines) (file : List ℕ) (inputs : List (List ℕ)) (o : Options) (m : Module) (a : Output) → let s = setup_of o (only_input inputs) in Fair s → IsSchedule o.schedule
        → IsAnswerToValid IsInstrumented under (Check file o) inputs m a → HoldsUnder (is_threaded m) m s o.schedule (shadow_under (is_threaded m) m s o.schedule) }
    ensures calls_under_fills { (under : Lines) (file : List ℕ) (inputs : List (List ℕ)) (o : Options) (m : Module) (a : Output) → let s = setup_of o (only_input inputs) in Fair s → IsSchedule o.schedule
        → IsAnswerToValid IsInstrumented under (Check file o) inputs m a → CallsHoldUnder (is_threaded m) m s o.schedule }
    ensures places { (m : Module) (s : Setup) (schedule : List ℕ) → uses_at (shadow_places_under (is_threaded m) m s schedule) ≡ (shadow_under (is_threaded m) m s schedule).blind }
    ensures once { (o : Options) (input : List ℕ) (m : Module) → is_threaded m ≡ false → o.once ≡ true → 1 ≤ o.reports → let s = setup_of o input in (n : ℕ) → length (shadow m (each_time s n)).reports < n
        → (shadow m s).reports ≡ take o.reports (firsts (shadow m (each_time s n)).reports) }
    ensures sections { (under : Lines) (file : List ℕ) (names inputs : List (List ℕ)) (o : Options) (workers : ℕ) (m : Module) (a : Output) → is_threaded m ≡ false → All (λ input. Fair (setup_of o input)) inputs
        → IsAnswerToValid IsInstrumented under (Corpus file names o workers) inputs m a → a ≡ answer_of_results under m names (map (λ input. shadow_wanted (wanted_of o) m (setup_of o input)) inputs) }
    ensures sections_under_fills { (under : Lines) (file : List ℕ) (names inputs : List (List ℕ)) (o : Options) (workers : ℕ) (m : Module) (a : Output) → is_threaded m ≡ false
        → IsAnswerToValid IsInstrumented under (Corpus file names o workers) inputs m a → (input : List ℕ) → Fair (setup_of o input) → HoldsUnderFills m (setup_of o input) (shadow m (setup_of o input)) }
    ensures summary { (m : Module) (a : Output) → IsAnswerOfGen IsInstrumented true m a
        → let r = shadow_under (is_threaded m) m (setup_of defaults []) defaults.schedule in a ≡ answer_of (status_of r) (summary_of m r) [] }
    ensures generated { (seed functions : ℕ) (a : Output) → IsAnswerOfGen IsInstrumented true (generated seed functions) a
        → let r = shadow (generated seed functions) (setup_of defaults []) in a ≡ answer_of (status_of r) (summary_of (generated seed functions) r) [] }
    ensures fair { (o : Options) (input : List ℕ) → RunsWithinLimits o → length input ≤ input_limit → All (λ b. b < 2 ^ 8) input → Fair (setup_of o input) }
    ensures defaults { Fair (setup_of defaults []) }
    ensures spelled { defaults ≡ record { input = None; fill = 0xa5 ∷ []; steps = 10000000; reports = 1; schedule = 0 ∷ []; locations = false; calls = false; once = false } }
{}

/// What `explain` says of a checked module is the first report of its shadow run, where the setup is fair, with the way of that
/// report's bits over the moves of that run, or that there is none; the closing lines are those of `check`. The way begins at a root
/// that the run had reached, each place on it is what the next move reads, and the last is what the report's use reads. From the state
/// after a move up to the one in which the next one reads it, the same bits of a place stay poisoned, and there are some. The calls at
/// its root are those that stand before the step of its first move in the run of the module itself; where the shadow run has no report
/// before that step they stand there in it. A module with threads is refused.
pub fn law_explanations_show_the_way()
    ensures shadow { (under : Lines) (file : List ℕ) (inputs : List (List ℕ)) (o : Options) (m : Module) (a : Output) → is_threaded m ≡ false → let s = setup_of o (only_input inputs) in Fair s
        → IsAnswerToValid IsInstrumented under (Explain file o) inputs m a → a ≡ answer_of_explained under o.calls m s (shadow_wanted (wanted_of o) m s) }
    ensures way { (under : Lines) (file : List ℕ) (inputs : List (List ℕ)) (o : Options) (m : Module) (a : Output) → is_threaded m ≡ false → let s = setup_of o (only_input inputs) in Fair s
        → IsAnswerToValid IsInstrumented under (Explain file o) inputs m a → (shadow m s).reports ≢ [] → ShowsWay under o.calls m s a.out }
    ensures none { (under : Lines) (file : List ℕ) (inputs : List (List ℕ)) (o : Options) (m : Module) (a : Output) → is_threaded m ≡ false → let s = setup_of o (only_input inputs) in Fair s
        → IsAnswerToValid IsInstrumented under (Explain file o) inputs m a → (shadow m s).reports ≡ [] → a.out ≡ no_report }
    ensures root { (m : Module) (s : Setup) (event : ℕ) → NoMarks m → (shadow m (shortened s event)).«end» ≢ Reported
        → calls_before m s (Some event) ≡ shadow_end_calls m (shortened s event) }
    ensures threads { (under : Lines) (file : List ℕ) (o : Options) (inputs : List (List ℕ)) (m : Module) (a : Output) → is_threaded m ≡ true
        → IsAnswerToValid IsInstrumented under (Explain file o) inputs m a → a ≡ says statuses.refused threads_text }
{
    moves_read_poison();
}

/// What `explain` says holds of every pass whose modules are faithful and name the same calls at their reports.
pub fn law_faithful_passes_explain<P: Pass>()
    ensures { (under : Lines) (file : List ℕ) (inputs : List (List ℕ)) (o : Options) (m : Module) (a : Output) → ((j : Module) → P.gives m j → Faithful m j × SameCalls m j)
        → is_threaded m ≡ false → let s = setup_of o (only_input inputs) in Fair s → IsAnswerToValid P.gives under (Explain file o) inputs m a → a ≡ answer_of_explained under o.calls m s (shadow_wanted (wanted_of o) m s) }
{}

/// What `instrument` writes is the text of a faithful module, and of no other formed module. `run` says of that text what `check`
/// says of the module that was read, with the same options and input, but for the verdict, or it refuses the text for a limit or
/// for numbering. It doesn't refuse one that is within the limits of its form. Where lines under each site are asked for, `run` shows
/// where the sites stand in the text that was written.
pub fn law_written_modules_run_alike()
    ensures named { (under : Lines) (file : List ℕ) (inputs : List (List ℕ)) (m j : Module) (a : Output) → IsAnswerToValid IsInstrumented under (Instrument file) inputs m a
        → Formed j → a.out ≡ written j → IsInstrumented m j }
    ensures alike { (under : Lines) (file name : List ℕ) (inputs : List (List ℕ)) (o : Options) (m : Module) (a b c : Output) → IsAnswerToValid IsInstrumented under (Instrument file) [] m a
        → IsAnswerToText IsInstrumented (Run name o) inputs a.out b → IsAnswerToValid IsInstrumented under (Check name o) inputs m c
        → IsLimitRefusal b ⊎ RunsAlike m name o a.out under b c }
    ensures fitting { (under : Lines) (file name : List ℕ) (inputs : List (List ℕ)) (o : Options) (m i : Module) (a b c : Output) → IsAnswerToValid IsInstrumented under (Instrument file) [] m a
        → IsElided m i → FitsText i → IsAnswerToText IsInstrumented (Run name o) inputs a.out b → IsAnswerToValid IsInstrumented under (Check name o) inputs m c
        → RunsAlike m name o a.out under b c }
{}

/// What the option `--where` adds is lines that begin with four blanks, under those that name a site and for places of blind uses: once these are taken out,
/// what `run`, `check` and `explain` say with the option is what they say without it. So is each text of which the sections of `corpus` are
/// made beside the output, which may have such lines of its own. Without the option each text is as it always was.
pub fn law_lines_are_added()
    ensures run { (file : List ℕ) (inputs : List (List ℕ)) (o : Options) (text : List ℕ) (a : Output) → IsAnswerToText IsInstrumented (Run file (with_locations true o)) inputs text a
        → IsAnswerToText IsInstrumented (Run file (with_locations false o)) inputs text (without_lines a) }
    ensures check { (file : List ℕ) (inputs : List (List ℕ)) (o : Options) (text : List ℕ) (a : Output) → IsAnswerToText IsInstrumented (Check file (with_locations true o)) inputs text a
        → IsAnswerToText IsInstrumented (Check file (with_locations false o)) inputs text (without_lines a) }
    ensures schedules { (file : List ℕ) (inputs : List (List ℕ)) (o : Options) (runs workers : ℕ) (text : List ℕ) (a : Output)
        → IsAnswerToText IsInstrumented (CheckSchedules file (with_locations true o) runs workers) inputs text a
        → IsAnswerToText IsInstrumented (CheckSchedules file (with_locations false o) runs workers) inputs text (without_lines a) }
    ensures explain { (file : List ℕ) (inputs : List (List ℕ)) (o : Options) (text : List ℕ) (a : Output) → IsAnswerToText IsInstrumented (Explain file (with_locations true o)) inputs text a
        → IsAnswerToText IsInstrumented (Explain file (with_locations false o)) inputs text (without_any_lines a) }
    ensures corpus { (file : List ℕ) (names inputs : List (List ℕ)) (o : Options) (workers : ℕ) (text : List ℕ) (a : Output)
        → IsAnswerToText IsInstrumented (Corpus file names (with_locations true o) workers) inputs text a → CorpusAdds IsInstrumented file names o workers inputs text a }
    ensures runs { (command : Command) (text : List ℕ) (m : Module) (under : Lines) (verdict : Bool) (t : ToldRun) → AreLines command text m under
        → unindented (run_text under verdict m t) ≡ run_text no_lines verdict m (without_places t) }
    ensures faults { (command : Command) (text : List ℕ) (m : Module) (under : Lines) (fault : Fault) → AreLines command text m under → unindented (fault_text_with under fault) ≡ fault_text fault }
    ensures none_in_runs { (verdict : Bool) (m : Module) (r : RunResult) → run_text no_lines verdict m (silent r) ≡ report_text_of m r ++ closing_of m r verdict }
    ensures none_in_faults { (fault : Fault) → fault_text_with no_lines fault ≡ fault_text fault }
{}

/// What the option `--calls` adds is lines that tell of calls, below those of reports: without the option `--where` what `run`, `check` and
/// `explain` say with the option is what they say without it, or that is left once these lines are taken out. So is each text of which the
/// sections of `corpus` are made beside the output.
pub fn law_calls_are_added()
    ensures run { (file : List ℕ) (o : Options) (inputs : List (List ℕ)) (text : List ℕ) (a : Output) → IsAnswerToText IsInstrumented (Run file (telling true o)) inputs text a
        → IsAnswerToText IsInstrumented (Run file (telling false o)) inputs text a ⊎ IsAnswerToText IsInstrumented (Run file (telling false o)) inputs text (without_calls a) }
    ensures check { (file : List ℕ) (o : Options) (inputs : List (List ℕ)) (text : List ℕ) (a : Output) → IsAnswerToText IsInstrumented (Check file (telling true o)) inputs text a
        → IsAnswerToText IsInstrumented (Check file (telling false o)) inputs text a ⊎ IsAnswerToText IsInstrumented (Check file (telling false o)) inputs text (without_calls a) }
    ensures schedules { (file : List ℕ) (o : Options) (runs workers : ℕ) (inputs : List (List ℕ)) (text : List ℕ) (a : Output)
        → IsAnswerToText IsInstrumented (CheckSchedules file (telling true o) runs workers) inputs text a
        → IsAnswerToText IsInstrumented (CheckSchedules file (telling false o) runs workers) inputs text a
        ⊎ IsAnswerToText IsInstrumented (CheckSchedules file (telling false o) runs workers) inputs text (without_calls a) }
    ensures explain { (file : List ℕ) (o : Options) (inputs : List (List ℕ)) (text : List ℕ) (a : Output) → IsAnswerToText IsInstrumented (Explain file (telling true o)) inputs text a
        → IsAnswerToText IsInstrumented (Explain file (telling false o)) inputs text a ⊎ IsAnswerToText IsInstrumented (Explain file (telling false o)) inputs text (without_any_calls a) }
    ensures corpus { (file : List ℕ) (names : List (List ℕ)) (o : Options) (workers : ℕ) (inputs : List (List ℕ)) (text : List ℕ) (a : Output)
        → IsAnswerToText IsInstrumented (Corpus file names (telling true o) workers) inputs text a → CorpusTells IsInstrumented file names o workers inputs text a }
    ensures runs { (verdict : Bool) (m : Module) (t : ToldRun) → uncalled (run_text no_lines verdict m t) ≡ run_text no_lines verdict m (without_told_calls t) }
{}

/// A valid module is never refused: where a text reads as a valid module, what is to be said of it is an answer for that module.
/// So it is for words that are a command, where the files are told and hold the texts within their limits, and no fault of
/// theirs was counted. The status of such an answer is one of four; only `msan` itself may say instead that memory ran out. What is
/// generated has no file. Only commands that take no schedule, `corpus` and `explain`, refuse a module with threads.
pub fn law_valid_modules_are_answered()
    ensures text { (command : Command) (inputs : List (List ℕ)) (text : List ℕ) (m : Module) (a : Output) → Reads (form_of command) text m → Valid m
        → IsAnswerToText IsInstrumented command inputs text a
        → (under : Lines) × AreLines command text m under × IsAnswerToValid IsInstrumented under command inputs m a }
    ensures words { (c : Counted) (files : Holdings) (words : List (List ℕ)) (command : Command) (text : List ℕ) (inputs : List (List ℕ)) (m : Module) (a : Output)
        → c.told ≡ Some files → (Rose c.faults c.faults_after → ⊥) → command_of words ≡ Ok command → AreHeld files (files_of command) (text ∷ inputs)
        → Reads (form_of command) text m → Valid m → IsAnswer IsInstrumented c words a
        → (under : Lines) × AreLines command text m under × IsAnswerToValid IsInstrumented under command inputs m a }
    ensures generated { (c : Counted) (words : List (List ℕ)) (seed functions : ℕ) (run : Bool) (a : Output) → command_of words ≡ Ok (Gen seed functions run)
        → IsAnswer IsInstrumented c words a → IsAnswerOfGen IsInstrumented run (generated seed functions) a }
    ensures status { (under : Lines) (command : Command) (inputs : List (List ℕ)) (m : Module) (a : Output) → IsTaken command m → IsAnswerToValid IsInstrumented under command inputs m a → IsDoneStatus a.status }
    ensures threads { (under : Lines) (file : List ℕ) (names : List (List ℕ)) (o : Options) (workers : ℕ) (inputs : List (List ℕ)) (m : Module) (a : Output) → is_threaded m ≡ true
        → IsAnswerToValid IsInstrumented under (Corpus file names o workers) inputs m a → a ≡ says statuses.refused threads_text }
{}

/// The output of `check` on a module is a beginning of the output of `run` on it, with the same options and input, where the setup
/// is fair; unless the checked run ends as reported, both print the same and end in the same way. With threads both have one schedule.
/// The same holds of one text that both read.
pub fn law_checks_begin_runs()
    ensures valid { (under below : Lines) (file name : List ℕ) (inputs : List (List ℕ)) (o : Options) (m : Module) (a b : Output) → Fair (setup_of o (only_input inputs)) → IsSchedule o.schedule
        → IsAnswerToValid IsInstrumented under (Check file o) inputs m a → IsAnswerToValid IsInstrumented below (Run name o) inputs m b → Begins m a b }
    ensures text { (file name : List ℕ) (inputs : List (List ℕ)) (o : Options) (text : List ℕ) (m : Module) (a b : Output) → Fair (setup_of o (only_input inputs)) → IsSchedule o.schedule
        → Reads Plain text m → Valid m → IsAnswerToText IsInstrumented (Check file o) inputs text a → IsAnswerToText IsInstrumented (Run name o) inputs text b → Begins m a b }
{}

/// What is read is bytes, whether the files tell what they hold or not, and the fields of a command that words ask for are within
/// their limits. So of any words that ask for a check what is to be said is this, with no premise on files: nothing was run, since a
/// file couldn't be read or was too long, or since the text that was read isn't a valid module's; or a text was read as a valid
/// module, and the answer is its shadow run with a fair setup. Then a clean verdict and a first report with its calls hold under every fill,
/// with threads under the same schedule, and without threads a clean verdict also where each step has a fill of its own, and where
/// uninitialised bits of memory and words change between steps.
pub fn law_checks_hold()
    ensures words { (c : Counted) (words : List (List ℕ)) (file : List ℕ) (o : Options) (a : Output) → command_of words ≡ Ok (Check file o)
        → IsAnswer IsInstrumented c words a → NothingRan c (files_of (Check file o)) a ⊎ ShadowShown c file o a }
    ensures commands { (c : Counted) (file : List ℕ) (o : Options) (a : Output) → RunsWithinLimits o
        → IsAnswerToCommand IsInstrumented c (Check file o) a → NothingRan c (files_of (Check file o)) a ⊎ ShadowShown c file o a }
    ensures fair { (c : Counted) (file : List ℕ) (o : Options) (text : List ℕ) (inputs : List (List ℕ)) → RunsWithinLimits o
        → CanRead c (files_of (Check file o)) (Whole (text ∷ inputs)) → Fair (setup_of o (only_input inputs)) }
    ensures bytes { (c : Counted) (files : List (List ℕ × ℕ)) (texts : List (List ℕ)) → CanRead c files (Whole texts) → All (λ text. All (λ b. b < 2 ^ 8) text) texts }
    ensures limits { (words : List (List ℕ)) (command : Command) → command_of words ≡ Ok command → IsWithinLimits command }
{}

/// Of any words that ask for a check under several schedules what is to be said is this, with no premise on files: nothing was run, as of
/// a check; or a text was read as a valid module, and the answer is of at most so many shadow runs with a fair setup, each begun with
/// other picks of threads, up to the first that isn't clean. Under the schedule that is told the run is the one that is told, and what this
/// says holds under every fill. Where the answer says that all schedules were tried, and the run that is told is clean, then under each
/// schedule there is, and whatever uninitialised memory holds, the program prints and ends as in one of these runs, with no report and no
/// blind use.
pub fn law_all_schedules_hold()
    ensures words { (c : Counted) (words : List (List ℕ)) (file : List ℕ) (o : Options) (runs workers : ℕ) (a : Output) → command_of words ≡ Ok (CheckSchedules file o runs workers)
        → IsAnswer IsInstrumented c words a → NothingRan c (files_of (CheckSchedules file o runs workers)) a ⊎ SchedulesShown c file o runs workers a }
    ensures commands { (c : Counted) (file : List ℕ) (o : Options) (runs workers : ℕ) (a : Output) → SchedulesWithinLimits o runs workers
        → IsAnswerToCommand IsInstrumented c (CheckSchedules file o runs workers) a
        → NothingRan c (files_of (CheckSchedules file o runs workers)) a ⊎ SchedulesShown c file o runs workers a }
{}

/// Of any words that ask for an explanation what is to be said is this, with no premise on files: nothing was run, as of a check, or
/// since a valid module with threads was read; or it explains what `check` says of the same files with the same options, and shows
/// the way of the bits of a report.
pub fn law_explanations_hold()
    ensures words { (c : Counted) (words : List (List ℕ)) (file : List ℕ) (o : Options) (a : Output) → command_of words ≡ Ok (Explain file o)
        → IsAnswer IsInstrumented c words a → NothingRan c (files_of (Explain file o)) a ⊎ (ThreadsRefused c (Explain file o) a ⊎ WayShown c file o a) }
    ensures commands { (c : Counted) (file : List ℕ) (o : Options) (a : Output) → RunsWithinLimits o
        → IsAnswerToCommand IsInstrumented c (Explain file o) a → NothingRan c (files_of (Explain file o)) a ⊎ (ThreadsRefused c (Explain file o) a ⊎ WayShown c file o a) }
{
    moves_read_poison();
}

/// Of any words that ask for a corpus what is to be said is this, with no premise on files: nothing was run, as of a check, or since a
/// valid module with threads was read; or a text was read as a valid module, and for each input there is a section of its shadow run
/// with a fair setup. A clean verdict and a first report of a section hold as those of a check do.
pub fn law_corpora_hold()
    ensures words { (c : Counted) (words : List (List ℕ)) (file : List ℕ) (names : List (List ℕ)) (o : Options) (workers : ℕ) (a : Output) → command_of words ≡ Ok (Corpus file names o workers)
        → IsAnswer IsInstrumented c words a
        → NothingRan c (files_of (Corpus file names o workers)) a ⊎ (ThreadsRefused c (Corpus file names o workers) a ⊎ CorpusShown c file names o workers a) }
    ensures commands { (c : Counted) (file : List ℕ) (names : List (List ℕ)) (o : Options) (workers : ℕ) (a : Output) → RunsWithinLimits o
        → IsAnswerToCommand IsInstrumented c (Corpus file names o workers) a
        → NothingRan c (files_of (Corpus file names o workers)) a ⊎ (ThreadsRefused c (Corpus file names o workers) a ⊎ CorpusShown c file names o workers a) }
{}
