// The clipper's two block calls under C names. Assumes nothing.
ghost use Rattle.std.specs.Prelude.{◌≡◌};
ghost use Rattle.clipper.specs.Block.{block};
ghost use Rattle.clipper.specs.declared.Kind.TheVariants.{Hard, Triode};
ghost use Rattle.answer.specs.Crossing.{told_in};

use answer::Numbered;
use clipper::Kind;

#[unsafe(no_mangle)]
pub extern "C" fn hoofglaze_clip_hard(drive: f32, input: &[f32], output: &mut [f32]) -> Numbered
    ensures { told_in output.new result ≡ block Hard drive input.now output.old }
{
    clipper::block(Kind::Hard, drive, input, output).into()
}

#[unsafe(no_mangle)]
pub extern "C" fn hoofglaze_clip_triode(drive: f32, input: &[f32], output: &mut [f32]) -> Numbered
    ensures { told_in output.new result ≡ block Triode drive input.now output.old }
{
    clipper::block(Kind::Triode, drive, input, output).into()
}
