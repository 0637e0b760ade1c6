// Reading and writing a recording, under C names. Assumes nothing.
ghost use Rattle.std.specs.Prelude.{◌≡◌};
ghost use Rattle.wave.specs.Reading.{read};
ghost use Rattle.wave_write.specs.Writing.{write, write_head};

#[unsafe(no_mangle)]
pub extern "C" fn hoofglaze_wave_read(buffer: &[u8]) -> wave::Figures
    ensures { result ≡ read buffer.now }
{
    wave::read(buffer).into()
}

#[unsafe(no_mangle)]
pub extern "C" fn hoofglaze_wave_write(
    rate: u32,
    samples: &[u8],
    output: &mut [u8],
) -> wave_write::Figures
    ensures { (result, output.new) ≡ write rate samples.now output.old }
{
    wave_write::write(rate, samples, output).into()
}

#[unsafe(no_mangle)]
pub extern "C" fn hoofglaze_wave_head(
    rate: u32,
    size: u64,
    output: &mut [u8],
) -> wave_write::Figures
    ensures { (result, output.new) ≡ write_head rate size output.old }
{
    wave_write::write_head(rate, size, output).into()
}
