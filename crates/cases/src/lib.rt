// Worked cases: small feeders whose answers are written out. Its function only names what is proved of them.
#![tactic(auto)]

ghost use Rattle.cases.specs.Case.{AllHold};
ghost use Rattle.cases.specs.Worked.{worked_cases};

// Every worked case holds, by the definitions that the other crates' contracts cite.
pub fn worked_cases_stand()
    ensures { AllHold worked_cases }
{}
