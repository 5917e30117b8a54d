//! The theorems: each function stands for one, which its contract states.
ghost use Rattle.std.specs.Prelude.{List};
ghost use Rattle.model.specs.Laws.{DemandIsGreatest, DemandKeepsLaws, RowsDemand, RulesMean, RoundIsLeast, TwoRoundsTell, TickIsEarliestDeadlineFirst};
ghost use Rattle.model.specs.Promise.{Agreement};
ghost use Rattle.model.specs.Tables.{Tables};
ghost use Rattle.model.specs.Task.{Task, AllLawful};
ghost use Rattle.model.specs.Told.{ToldSuffices};
ghost use Rattle.model.specs.Verdict.{verdict};

/// The demand at a length is the greatest sum that lawful runs can put into a window of that length.
#[tactic(auto, using(crate::proofs::Demand::Greatest::demand_is_greatest))]
pub fn demand_is_greatest()
    ensures { DemandIsGreatest }
{}

/// Demand is 0 at length 0, never falls, grows by the total with each spacing from the first on, and is linear in a factor.
#[tactic(auto, using(crate::proofs::Demand::Laws::demand_none, crate::proofs::Demand::Laws::demand_mono, crate::proofs::Demand::Laws::demand_step, crate::proofs::Demand::Slow::demand_slow))]
pub fn demand_keeps_laws()
    ensures { DemandKeepsLaws }
{}

/// The formulas of plain rows and of rows of two pieces give their demand.
#[tactic(auto, using(crate::proofs::Demand::Rows::rows_demand))]
pub fn rows_ask_by_formula()
    ensures { RowsDemand }
{}

/// A row is refused exactly where it breaks a rule, and the rules make its task lawful.
#[tactic(auto, using(crate::proofs::Rules::Keeps::rules_mean))]
pub fn rules_mean_lawful_rows()
    ensures { RulesMean }
{}

/// The round is the least common multiple of the spacings.
#[tactic(auto, using(crate::proofs::Round::Least::round_is_least))]
pub fn round_is_least()
    ensures { RoundIsLeast }
{}

/// Where no length below twice the round is exceeded, none is.
#[tactic(auto, using(crate::proofs::Round::Least::two_rounds_tell))]
pub fn two_rounds_tell()
    ensures { TwoRoundsTell }
{}

/// A tick runs the ready piece that is due first, and stops at the late piece that was due first.
#[tactic(auto, using(crate::proofs::Tick::tick_is_earliest_deadline_first))]
pub fn tick_is_earliest_deadline_first()
    ensures { TickIsEarliestDeadlineFirst }
{}

/// Costs told up to 10^15 serve the machine and the check as the costs themselves do.
#[tactic(auto, using(crate::proofs::Told::Runs::told_suffices))]
pub fn told_numbers_suffice()
    ensures { (ks : List Task) → AllLawful ks → ToldSuffices ks }
{}

/// What the verdict says of every machine that is opened on the tasks.
#[tactic(auto, using(crate::proofs::Promise::agreement))]
pub fn verdict_and_machine_agree()
    ensures { (ks : List Task) → AllLawful ks → Agreement ks (verdict ks) }
{}

/// The worked examples of the definitions.
#[tactic(auto, using(crate::proofs::Tables::tables))]
pub fn worked_tables_stand()
    ensures { Tables }
{}
