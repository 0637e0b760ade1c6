// A block is its samples one after the other: a step over any state and samples, and the one loop that runs it over a block.
#![tactic(auto)]

ghost use Rattle.std.specs.Prelude.{◌≡◌, length};
ghost use Rattle.fold.specs.Fold.{state_after, out_after};

// What a sample leaves, and what it gives.
pub trait Step {
    type State: Copy;

    type Sample: Copy;

    type Output: Copy;

    ghost next: { Self → Self.State → Self.Sample → Self.State };

    ghost given: { Self → Self.State → Self.Sample → Self.Output };

    fn step(&self, state: Self::State, x: Self::Sample) -> (Self::State, Self::Output)
        ensures { result ≡ (next self.now state x, given self.now state x) };
}

// A block's samples, one after the other: the state that they leave.
pub fn run<S: Step>(
    by: &S,
    state: S::State,
    input: &[S::Sample],
    output: &mut [S::Output],
) -> S::State
    requires { length input.now ≡ length output.old }
    ensures left { result ≡ state_after (S.next by.now) state input.now }
    ensures written { output.new ≡ out_after (S.next by.now) (S.given by.now) state input.now }
{
    let mut now = state;
    for (i, x) in input.iter().enumerate() {
        let (next, given) = by.step(now, *x);
        now = next;
        output[i] = given;
    }
    now
}
