// The ranks of one side's ports: a port without a request has 0, another 1 plus the number of distinct smaller weights among requesting ports.
ghost use Rattle.std.specs.Prelude.{◌≡◌, true, ◌+◌, ◌≤◌, drop};
ghost use Rattle.masks.specs.Paper.{has, keep};
ghost use Rattle.matches.specs.Paper.{at, tab, rank, member, smaller};
ghost use Rattle.matching.specs.Ranks.{Added, Found};

// The distinct weights of the ports passed: those from place `from` on. `distinct` keeps the last of equal weights, so they come from the end and each goes
// in front: an ArrayVec would hold them the other way round.
#[derive(Clone, Copy)]
struct Levels {
    from: usize,
    weights: [u32; 32],
    ghost inside: { from ≤ 32 },
}

impl Levels {
    // None yet.
    fn none(weights: [u32; 32]) -> Levels
        ensures { (result.from ≡ 32) × (result.weights ≡ weights) }
    {
        Levels { from: 32, weights }
    }

    // The distinct weights.
    fn distinct(&self) -> &[u32]
        ensures { result.now ≡ drop self.now.from self.now.weights }
    {
        &self.weights[self.from..]
    }

    // One weight more: it goes in front where it is new.
    #[tactic(auto, using(crate::specs::Ranks::member_any))]
    fn add(&mut self, weight: u32)
        requires { 1 ≤ self.old.from }
        ensures { Added true weight self.old.from self.old.weights self.new.from self.new.weights }
    {
        if self.distinct().contains(&weight) {
            return;
        }
        let from = self.from - 1;
        self.weights[from] = weight;
        self.from = from;
    }

    // Of a port that asks, 1 plus the number of smaller weights.
    fn rank(&self, asks: bool, weight: u32) -> u32
        ensures { result ≡ keep asks (1 + smaller weight (drop self.now.from self.now.weights)) }
    {
        if !asks {
            return 0;
        }
        // A `for`: a filtered `count` takes a branch for each level. docs/LOOK-BACK.md, d1, has the times.
        let levels = self.distinct();
        let mut rank = 1;
        for level in levels.iter() {
            if *level < weight {
                rank += 1;
            }
        }
        rank
    }
}

// Each weight replaced by its port's rank.
pub fn ranks(asking: u32, weights: &mut [u32; 32])
    ensures { weights.new ≡ tab 32 (rank (has asking) (at weights.old)) }
{
    let levels = levels_of(asking, weights);
    for (i, weight) in weights.iter_mut().enumerate() {
        *weight = levels.rank(masks::has(asking, i as u32), *weight);
    }
}

// The distinct weights of the ports that ask, from the last port to the first.
fn levels_of(asking: u32, weights: &[u32; 32]) -> Levels
    ensures { Found (has asking) (at weights.now) 0 result.from result.weights }
{
    let mut levels = Levels::none(*weights);
    // By number, which is asked of the set and of the list: behind `enumerate().rev()` a proof does not know which port it is.
    for i in (0..32u32).rev() {
        if masks::has(asking, i) {
            levels.add(weights[i as usize]);
        }
    }
    levels
}
