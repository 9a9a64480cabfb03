//! The masks of results.
ghost use Rattle.ms_runs.specs.Masks.{by_completions, by_formulas};
ghost use Rattle.ms_runs_good_laws.specs.GoodRules.{KeepWidths};

/// Of words in range, the rules that try all completions and those that are formulas give masks in the range of the
/// result.
pub fn masks_fit()
    ensures completions { KeepWidths by_completions }
    ensures formulas { KeepWidths by_formulas }
{}
