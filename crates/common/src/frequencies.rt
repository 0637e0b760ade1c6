// Constant tables, in Hz: the sixteen band centres, beside the corner frequencies of the four tone
// stack models.
ghost use Rattle.std.specs.Prelude.{◌≡◌};
ghost use Rattle.common.specs.Frequencies as frequencies;

// In the order of their numbers, from 0.
#[derive(Clone, Copy, Debug, PartialEq, Eq)]
pub enum Model {
    Modern,
    British,
    American,
    Flat,
}

#[derive(Clone, Copy)]
pub struct Corners {
    pub bass: f32,
    pub treble: f32,
    pub presence: f32,
}

const CENTRES: [f64; 16] = [
    25.0, 40.0, 63.0, 100.0, 160.0, 250.0, 400.0, 630.0, 1000.0, 1600.0, 2500.0, 4000.0, 6300.0,
    10000.0, 16000.0, 20000.0,
];

const MODERN: Corners = Corners {
    bass: 120.0,
    treble: 2200.0,
    presence: 6000.0,
};

const BRITISH: Corners = Corners {
    bass: 100.0,
    treble: 2000.0,
    presence: 5000.0,
};

const AMERICAN: Corners = Corners {
    bass: 80.0,
    treble: 1800.0,
    presence: 4000.0,
};

const FLAT: Corners = Corners {
    bass: 100.0,
    treble: 2000.0,
    presence: 5000.0,
};

pub fn band_centre(band: usize) -> Option<f64>
    ensures { result ≡ frequencies.band_centre band }
{
    if band < CENTRES.len() {
        Some(CENTRES[band])
    } else {
        None
    }
}

pub fn model_corners(model: Model) -> Corners
    ensures { result ≡ frequencies.model_corners model }
{
    match model {
        Model::Modern => MODERN,
        Model::British => BRITISH,
        Model::American => AMERICAN,
        Model::Flat => FLAT,
    }
}
