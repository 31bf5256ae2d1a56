ghost use Rattle.std.specs.Prelude.{◌≡◌};
ghost use Rattle.schedule.specs.Ranges.{Ranges, Lawful, alphabet, end_mark, longest};

// A schedule is the numbers that it answers, 0 where it has no such range; `ranges` names them. Asking alters nothing.
pub trait Schedule {
    ghost ranges: { Self → Ranges };

    // B: a block is a number below it.
    fn base(&self) -> u64
        ensures { result ≡ (ranges self.now).base };

    // How many symbols stand before the first pair: 0 or 1.
    fn lead(&self) -> u64
        ensures { result ≡ (ranges self.now).lead };

    // K, the step count: how many pairs a stream may have.
    fn steps(&self) -> u64
        ensures { result ≡ (ranges self.now).steps };

    // C(j), the carrier range of group j, for j below K, and 0 for every other j.
    fn carrier(&self, j: u64) -> u64
        ensures { result ≡ (ranges self.now).carrier j };

    // Y(j), the spill range of group j, for j up to K, and 0 for every other j.
    fn spill(&self, j: u64) -> u64
        ensures { result ≡ (ranges self.now).spill j };

    // The symbol that ends a recording.
    final fn end_mark(&self) -> u64
        ensures { result ≡ end_mark (ranges self.now) }
    {
        self.base()
    }

    // A, the count of symbols: the blocks and the end mark.
    final fn alphabet(&self) -> u64
        ensures { result ≡ alphabet (ranges self.now) }
    {
        self.end_mark() + 1
    }

    // N, the blocks of the longest recording.
    final fn longest(&self) -> u64
        ensures { result ≡ longest (ranges self.now) }
    {
        self.lead() + 2 * self.steps() - 1
    }

    ghost lawful: { (s : Self) → Lawful (ranges s) };
}
