// The four steps of an accepted slot.
ghost use Rattle.std.specs.Prelude.{◌≡◌, ◌*◌, Ok, take};
ghost use Rattle.matching.specs.Answers.{answer_of};
ghost use Rattle.slot.specs.Paper.{accepted, match_of};
ghost use Rattle.slot.specs.Answers.{state_of, accepted_of};
ghost use Rattle.slot.specs.Accepted.{Fit};
ghost use Rattle.matches.specs.Paper.{table_refusal};

use crate::{Record, Report};
use card::Arrivals;
use matching::Match;

impl Record {
    // The arrivals, the match, the departures, and the next slot number.
    pub(crate) fn accepted(
        &mut self,
        hold: u32,
        arrivals: &Arrivals,
        cells: &mut [u32],
        stamps: &mut [u32],
    ) -> Report
        requires { Fit (state_of self.old cells.old stamps.old) hold arrivals.now }
        ensures { accepted_of self.new result cells.new stamps.new ≡ accepted (state_of self.old cells.old stamps.old) hold arrivals.now }
    {
        let dropped = self.take_all(arrivals, cells, stamps);
        let found = self.matched(hold);
        let sent = self.send_all(found.partners, cells, stamps);
        self.slot = self.slot.wrapping_add(1);
        Report {
            size: found.size,
            weight: found.weight,
            dropped,
            ..sent
        }
    }

    // Step 2: requests and totals as they are after the arrivals, and the match.
    #[tactic(auto, using(crate::proofs::Accepted::table_used, crate::proofs::Accepted::table_found), unfolding(crate::specs::Paper::match_of))]
    fn matched(&self, hold: u32) -> Match
        requires { table_refusal self.now.card.m self.now.card.n (take (self.now.card.m * self.now.card.n) self.now.counts) hold ≡ 0 }
        ensures { answer_of (Ok result) ≡ match_of self.now hold }
    {
        let used = self.card.m as usize * self.card.n as usize;
        matching::table_match(self.card.m, self.card.n, &self.counts[..used], hold).unwrap()
    }
}
