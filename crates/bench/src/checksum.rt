// One number for all that is answered.
ghost use Rattle.std.specs.Prelude.{◌≡◌, ◌+◌, ◌*◌, ◌%◌, ◌^◌};

use model::refusal::Refusal;
use records::report::Report;

#[derive(Clone, Copy, Debug, Default, PartialEq, Eq)]
pub(crate) struct Checksum {
    pub(crate) value: u64,
}

impl Checksum {
    pub(crate) fn add(&mut self, x: u64)
        ensures { self.new.value ≡ (self.old.value * 1099511628211 + x) % 2 ^ 64 }
    {
        self.value = self.value.wrapping_mul(1099511628211).wrapping_add(x);
    }

    pub(crate) fn add_letters(&mut self, letters: &[u8]) {
        for letter in letters {
            self.add(u64::from(*letter));
        }
    }

    // A report, without its letters. A second that is not there counts as the largest number.
    pub(crate) fn add_report(&mut self, report: &Report) {
        self.add(report.first as u64);
        self.add(report.last as u64);
        self.add(report.cost);
        self.add(report.ties);
        self.add(report.second.unwrap_or(u64::MAX));
    }

    pub(crate) fn add_refusal(&mut self, refusal: Refusal) {
        self.add(u64::from(refusal.number()));
    }
}
