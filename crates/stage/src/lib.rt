// A stage: a state that a host sets by names and runs over blocks. Each call that it answers, once for all stages.
#![tactic(auto)]

ghost use Rattle.std.specs.Prelude.{◌≡◌, ℕ, Bool, List, Float, Option, Result, ⊤, length};
ghost use Rattle.answer.specs.Checks.{nine};
ghost use Rattle.answer.specs.Told.{Told, done, told};
ghost use Rattle.answer.specs.Blocks.{checked_block};
ghost use Rattle.answer.specs.declared.Refusal.{Refusal};
ghost use Rattle.stage.specs.Calls.{told_by, valued, found, checked, setting};

use answer::Refusal;

pub trait Stage: Copy {
    // A setting: its value, and the worked numbers that it takes.
    type Setting: Copy;

    // The value beside a name.
    type Value: Copy;

    // The worked numbers beside a name and a value.
    type Numbers: Copy;

    // What a done setting says, and a done block.
    type Said: Copy;

    type Passed: Copy;

    // What each call tells.
    ghost set: { Self → List ℕ → Self.Value → Self.Numbers → Told Self };

    ghost set_typed: { Self → Self.Setting → Told Self };

    ghost read: { Self → List ℕ → Told Self };

    ghost reset: { Self → Told Self };

    ghost block: { Self → List Float → List Float → Told Self × List Float };

    // What a done setting and a done block tell, of the state that they leave.
    ghost says: { Self → Self.Said → Told Self };

    ghost passes: { Self → Self.Passed → Told Self };

    // What the stage says of itself.
    ghost acceptable: { Self → Bool };

    ghost find: { List ℕ → Self.Value → Self.Numbers → Option Self.Setting };

    ghost vet: { Self.Setting → Result ⊤ Refusal };

    ghost take: { Self → Self.Setting → Self × Self.Said };

    ghost stored: { Self → List ℕ → Result Float Refusal };

    ghost rest: { Self → Self };

    ghost run: { Self → List Float → Told Self × List Float };

    // Whether 9 lets it through.
    fn acceptable(&self) -> bool
        ensures { result ≡ acceptable self.now };

    // The setting that a name asks for, with the value and the worked numbers beside it.
    fn find(name: &[u8], value: Self::Value, numbers: Self::Numbers) -> Option<Self::Setting>
        ensures { result ≡ find name.now value numbers };

    // What refuses a setting: its place, its value or its worked numbers.
    fn vet(t: Self::Setting) -> Result<(), Refusal>
        ensures { result ≡ vet t };

    // Takes a setting that was vetted.
    fn take(&mut self, t: Self::Setting) -> Self::Said
        requires { vet t ≡ Ok tt }
        ensures { (self.new, result) ≡ take self.old t };

    // The value kept for the setting of that name.
    fn stored(&self, name: &[u8]) -> Result<f32, Refusal>
        ensures { result ≡ stored self.now name.now };

    // What a sample moves, as at the making.
    fn rest(&mut self)
        ensures { self.new ≡ rest self.old };

    // A block's samples, one after the other.
    fn run(&mut self, input: &[f32], output: &mut [f32]) -> Self::Passed
        requires { length input.now ≡ length output.old }
        ensures { (passes self.new result, output.new) ≡ run self.old input.now };

    // What each call tells is made of that.
    ghost set_typed_is: { (s : Self) (t : Self.Setting) → set_typed s t ≡ setting acceptable s says (vet t) (take s t) };

    ghost set_is: { (s : Self) (name : List ℕ) (value : Self.Value) (numbers : Self.Numbers) → set s name value numbers ≡ checked acceptable s (found s (set_typed s) (find name value numbers)) };

    ghost read_is: { (s : Self) (name : List ℕ) → read s name ≡ checked acceptable s (told_by valued s (stored s name)) };

    ghost reset_is: { (s : Self) → reset s ≡ checked acceptable s (done (rest s)) };

    ghost block_is: { (s : Self) (xs : List Float) (out : List Float) → block s xs out ≡ checked_block s out (run s xs) (acceptable s) xs };

    // 9.
    final fn check(&self) -> Result<(), Refusal>
        ensures { result ≡ nine (acceptable self.now) }
    {
        answer::checked(self.acceptable())
    }

    // A typed setting: 9, then what refuses it.
    final fn set_typed(&mut self, t: Self::Setting) -> Result<Self::Said, Refusal>
        ensures { told_by says self.new result ≡ set_typed self.old t }
    {
        self.check()?;
        Self::vet(t)?;
        Ok(self.take(t))
    }

    // A setting by its name, with a value and its worked numbers: 9, 1, then what refuses it.
    final fn set(
        &mut self,
        name: &[u8],
        value: Self::Value,
        numbers: Self::Numbers,
    ) -> Result<Self::Said, Refusal>
        ensures { told_by says self.new result ≡ set self.old name.now value numbers }
    {
        self.check()?;
        let Some(asked) = Self::find(name, value, numbers) else {
            return Err(Refusal::NoSetting);
        };
        Self::vet(asked)?;
        Ok(self.take(asked))
    }

    // The value of the setting of that name: 9, then what refuses the name.
    final fn read(&self, name: &[u8]) -> Result<f32, Refusal>
        ensures { told_by valued self.now result ≡ read self.now name.now }
    {
        self.check()?;
        self.stored(name)
    }

    // At rest, the settings kept: 9.
    final fn reset(&mut self) -> Result<(), Refusal>
        ensures { told self.new result ≡ reset self.old }
    {
        self.check()?;
        self.rest();
        Ok(())
    }

    // A block of samples, and the buffer for its output: 9, 7, 8, 6.
    final fn block(&mut self, input: &[f32], output: &mut [f32]) -> Result<Self::Passed, Refusal>
        ensures { (told_by passes self.new result, output.new) ≡ block self.old input.now output.old }
    {
        self.check()?;
        answer::check_block(input, output.len())?;
        Ok(self.run(input, output))
    }
}
