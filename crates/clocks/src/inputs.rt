// What the two encoders are fed: a block's bits, and the same interleaved.
ghost use Rattle.std.specs.Prelude.{◌≡◌, ◌≤◌, length, take, drop};

#[derive(Clone, Copy)]
pub struct Inputs<'a> {
    pub u: &'a [bool],
    pub v: &'a [bool],
    ghost same: { length u.now ≡ length v.now },
}

impl<'a> Inputs<'a> {
    // Those of the first n clocks, and those behind.
    pub fn split_at(self, n: usize) -> (Inputs<'a>, Inputs<'a>)
        requires { n ≤ length self.u.now }
        ensures first { (result.0.u.now ≡ take n self.entry.u.now) × (result.0.v.now ≡ take n self.entry.v.now) }
        ensures behind { (result.1.u.now ≡ drop n self.entry.u.now) × (result.1.v.now ≡ drop n self.entry.v.now) }
    {
        let (u, u_behind) = self.u.split_at(n);
        let (v, v_behind) = self.v.split_at(n);
        let first = Inputs { u, v };
        let behind = Inputs {
            u: u_behind,
            v: v_behind,
        };
        (first, behind)
    }
}
