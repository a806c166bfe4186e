// The kinds of blocks, and what each asks of a block.
ghost use Rattle.std.specs.Prelude.{◌≡◌, ok_or};
ghost use Rattle.model.specs.declared.refusal.Refusal.TheVariants.{BlockKind};
ghost use Rattle.blocks.specs.Kinds.{kind_of, may_stand, may_carry, may_precede};

use model::refusal::Refusal;

#[derive(Clone, Copy, Debug, PartialEq, Eq)]
pub enum Kind {
    Description,
    Samples,
    End,
}

// The kind that a number stands for, if it stands for one.
impl TryFrom<u16> for Kind {
    type Error = Refusal;

    ghost try_from_gives = { λ number result. result ≡ ok_or (kind_of number) BlockKind };

    fn try_from(number: u16) -> Result<Kind, Refusal> {
        match number {
            1 => Ok(Kind::Description),
            2 => Ok(Kind::Samples),
            3 => Ok(Kind::End),
            _ => Err(Refusal::BlockKind),
        }
    }
}

impl Kind {
    // A description stands first, and nowhere else.
    pub(crate) fn may_stand(self, is_first: bool) -> bool
        ensures { result ≡ may_stand self is_first }
    {
        (self == Kind::Description) == is_first
    }

    // A sample has two bytes, and an end block carries nothing.
    pub(crate) fn may_carry(self, payload: &[u8]) -> bool
        ensures { result ≡ may_carry self payload.now }
    {
        match self {
            Kind::Description => true,
            Kind::Samples => payload.len().is_multiple_of(2),
            Kind::End => payload.is_empty(),
        }
    }

    // Nothing comes after an end block.
    pub(crate) fn may_precede(self, rest: &[u8]) -> bool
        ensures { result ≡ may_precede self rest.now }
    {
        self != Kind::End || rest.is_empty()
    }
}
