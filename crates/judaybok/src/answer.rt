// What a caller in C is answered.
use model::refusal::Fault;
use recordings::outcome::Outcome;

// What a recording gives, as a plain struct of C. The number is 0 where the recording is accepted; then layer and place
// are 0 too. Else number, layer and place are those of the fault, and all the rest is 0.
#[repr(C)]
#[derive(Clone, Copy, Default)]
pub struct JudaybokAnswer {
    pub number: u32,
    pub layer: u32,
    pub place: u64,
    pub samples: u64,
    pub paths: u64,
    pub cost: u64,
    pub ties: u64,
    // 1 where there is a second, which then follows; else both are 0. C has no Option.
    pub has_second: u64,
    pub second: u64,
    pub start: u64,
    pub end: u64,
}

impl From<Fault> for JudaybokAnswer {
    ghost use Rattle.std.specs.Prelude.{◌≡◌};
    ghost use Rattle.model.specs.Refusals.{refused};
    ghost use Rattle.judaybok.specs.Answers.{fault_answer};

    ghost from_gives = { λ fault answer. answer ≡ fault_answer (refused fault) };

    fn from(fault: Fault) -> JudaybokAnswer {
        JudaybokAnswer {
            number: u32::from(fault.refusal.number()),
            layer: u32::from(fault.layer.number()),
            place: fault.place as u64,
            ..JudaybokAnswer::default()
        }
    }
}

impl From<Outcome> for JudaybokAnswer {
    ghost use Rattle.std.specs.Prelude.{◌≡◌};
    ghost use Rattle.judaybok.specs.Answers.{outcome_answer};

    ghost from_gives = { λ found answer. answer ≡ outcome_answer found };

    fn from(found: Outcome) -> JudaybokAnswer {
        let report = found.report;
        JudaybokAnswer {
            samples: found.samples as u64,
            paths: found.paths,
            cost: report.cost,
            ties: report.ties,
            has_second: u64::from(report.second.is_some()),
            second: report.second.unwrap_or(0),
            start: report.first as u64,
            end: report.last as u64,
            ..JudaybokAnswer::default()
        }
    }
}

impl From<Result<Outcome, Fault>> for JudaybokAnswer {
    ghost use Rattle.std.specs.Prelude.{◌≡◌};
    ghost use Rattle.model.specs.Refusals.{outcome};
    ghost use Rattle.judaybok.specs.Answers.{answer_in};

    ghost from_gives = { λ given answer. answer ≡ answer_in (outcome given) };

    fn from(given: Result<Outcome, Fault>) -> JudaybokAnswer {
        match given {
            Ok(found) => found.into(),
            Err(fault) => fault.into(),
        }
    }
}
