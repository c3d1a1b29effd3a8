// The line that answers a case: its letter, and then each number behind a blank.
use card::Refusal;
use matching::{Match, RankForm};
use std::fmt;
use std::fmt::{Display, Formatter};

// M, the refusal, the number of pairs, their weight, and each input's partner.
#[derive(Clone, Copy)]
pub struct MatchLine(pub Result<Match, Refusal>);

impl Display for MatchLine {
    fn fmt<W: fmt::Write>(&self, f: &mut Formatter<W>) -> fmt::Result {
        let found = Match::of(self.0);
        write!(
            f,
            "M {} {} {}",
            card::number(&self.0),
            found.size,
            found.weight
        )?;
        for partner in found.partners.iter() {
            write!(f, " {}", partner.0)?;
        }
        Ok(())
    }
}

// K, the refusal, the rows, the input ranks and the output ranks.
#[derive(Clone, Copy)]
pub struct RankLine(pub Result<RankForm, Refusal>);

impl Display for RankLine {
    fn fmt<W: fmt::Write>(&self, f: &mut Formatter<W>) -> fmt::Result {
        let form = RankForm::of(self.0);
        write!(f, "K {}", card::number(&self.0))?;
        let lists = form
            .rows
            .iter()
            .chain(form.inputs.iter())
            .chain(form.outputs.iter());
        for x in lists {
            write!(f, " {x}")?;
        }
        Ok(())
    }
}
