//! What lines under sites and lines of calls do to a text, and which function a line names.
ghost use Rattle.std.specs.Prelude.{◌≡◌, Bool, ℕ, List, [], Option, Some, None, false, slice_get};
ghost use Rattle.ms_ir.specs.{declared.syntax.Func.{Func}, declared.syntax.Inst.{Inst}, declared.syntax.Module.{Module}};
ghost use Rattle.ms_ir.specs.Instructions.{func_at, insts_at, site_at};
ghost use Rattle.ms_runs.specs.{declared.runs.RunResult.{RunResult}, declared.runs.Calls.{Calls}, declared.runs.BlindPlace.{BlindPlace}};
ghost use Rattle.ms_where_places.specs.Indented.{IsIndented, unindented};
ghost use Rattle.ms_report.specs.{declared.refusals.Refusal.{Refusal}, RunTexts.{closing_of, function_of}};
ghost use Rattle.ms_report.specs.{ReportTexts.{report_text_of}, RefusalTexts.{refusal_text}, TrailTexts.{trail_with, trail_calling}};
ghost use Rattle.ms_report.specs.WithLines.{no_lines, reports_with, closing_text_with, refusal_text_with};
ghost use Rattle.ms_report.specs.{BlindTexts.{places_with}, CallTexts.{reports_calling, closing_calling}, Uncalled.{uncalled}};
ghost use Rattle.ms_trail_moves.specs.{declared.moves.Source.{Source}, declared.moves.Move.{Move}, declared.moves.Hop.{Hop}};

/// Laws: where there are no lines under any site, each text with lines is the text without. Where the lines under each site
/// begin with four blanks, the text without is what is left once the lines that begin so are taken out: nothing else is added,
/// and nothing is lost; so go the lines of places of blind uses. Where no calls are told, each text with lines of calls is the text without.
pub fn law_lines_are_added()
    ensures none_in_reports { (m : Module) (r : RunResult) → reports_with no_lines m 1 r.reports ≡ report_text_of m r }
    ensures none_in_closings { (m : Module) (r : RunResult) (verdict : Bool) → closing_text_with no_lines m r verdict ≡ closing_of m r verdict }
    ensures none_in_refusals { (cause : Refusal) → refusal_text_with no_lines cause ≡ refusal_text cause }
    ensures taken_out_of_reports { (under : ℕ → List ℕ) (m : Module) (r : RunResult) → ((site : ℕ) → IsIndented (under site)) → unindented (reports_with under m 1 r.reports) ≡ report_text_of m r }
    ensures taken_out_of_closings { (under : ℕ → List ℕ) (m : Module) (r : RunResult) (verdict : Bool) → ((site : ℕ) → IsIndented (under site)) → unindented (closing_text_with under m r verdict) ≡ closing_of m r verdict }
    ensures taken_out_of_trails { (under : ℕ → List ℕ) (m : Module) (moves : List Move) (at : Source) (hops : List Hop) → ((site : ℕ) → IsIndented (under site)) → unindented (trail_with under m moves at hops) ≡ trail_with no_lines m moves at hops }
    ensures none_in_calls { (under : ℕ → List ℕ) (m : Module) (r : RunResult) → reports_calling under m [] 0 r.reports ≡ reports_with under m 1 r.reports }
    ensures taken_out_of_calls { (under : ℕ → List ℕ) (m : Module) (r : RunResult) (calls : List Calls) → ((site : ℕ) → IsIndented (under site)) → unindented (reports_calling under m calls 0 r.reports) ≡ reports_calling no_lines m calls 0 r.reports }
    ensures none_in_closing_calls { (under : ℕ → List ℕ) (m : Module) (r : RunResult) (verdict : Bool) → closing_calling under m r None verdict ≡ closing_text_with under m r verdict }
    ensures taken_out_of_closing_calls { (under : ℕ → List ℕ) (m : Module) (r : RunResult) (calls : Option Calls) (verdict : Bool) → ((site : ℕ) → IsIndented (under site)) → unindented (closing_calling under m r calls verdict) ≡ closing_calling no_lines m r calls verdict }
    ensures none_in_trail_calls { (under : ℕ → List ℕ) (m : Module) (moves : List Move) (at : Source) (hops : List Hop) → trail_calling under m moves at hops None ≡ trail_with under m moves at hops }
    ensures taken_out_of_trail_calls { (under : ℕ → List ℕ) (m : Module) (moves : List Move) (at : Source) (hops : List Hop) (calls : Option Calls) → ((site : ℕ) → IsIndented (under site)) → unindented (trail_calling under m moves at hops calls) ≡ trail_calling no_lines m moves at hops calls }
    ensures taken_out_of_places { (under : ℕ → List ℕ) (m : Module) (places : List BlindPlace) → ((site : ℕ) → IsIndented (under site)) → unindented (places_with under m places) ≡ [] }
    ensures taken_out_of_refusals { (under : ℕ → List ℕ) (cause : Refusal) → ((site : ℕ) → IsIndented (under site)) → unindented (refusal_text_with under cause) ≡ refusal_text cause }
{}

/// What lines of calls add is whole lines that name calls, or tell how many more there are: where there are no lines under sites, each
/// text without calls is what is left once these are taken out. Texts without them stay as they are.
pub fn law_calls_are_added()
    ensures taken_out { (m : Module) (r : RunResult) (calls : List Calls) → uncalled (reports_calling no_lines m calls 0 r.reports) ≡ report_text_of m r }
    ensures closings { (m : Module) (r : RunResult) (calls : Option Calls) (verdict : Bool) → uncalled (closing_calling no_lines m r calls verdict) ≡ closing_of m r verdict }
    ensures trails { (m : Module) (moves : List Move) (at : Source) (hops : List Hop) (calls : Option Calls) → uncalled (trail_calling no_lines m moves at hops calls) ≡ trail_with no_lines m moves at hops }
{}

/// The function that a line names with a site is that in which the instruction with this site stands.
pub fn law_functions_are_named()
    ensures { (m : Module) (f b p : ℕ) (func : Func) (inst : Inst) → func_at m f ≡ Some func → slice_get (insts_at m f b) p ≡ Some inst → inst.marked ≡ false
        → function_of m (site_at m f b p) ≡ Some func.name }
{}
