ghost use Rattle.raster_model.specs.Limits.{is_tiled_size, IsTileSide};
ghost use Rattle.report_text.specs.Text.{tiles_by};
ghost use Rattle.std.specs.Prelude.{◌≡◌, IsTrue};
ghost use Rattle.text_lines.specs.Parsing.{IsWide};

use raster_model::RuleKind;

/// What the first four lines say.
#[derive(Clone, Copy)]
pub(crate) struct Head {
    pub version: u32,
    pub width: u32,
    pub height: u32,
    pub side: u32,
    pub rule: RuleKind,
    /// How many tiles there are.
    pub tiles: u32,
    pub ghost sized: { IsTrue (is_tiled_size width height) },
    pub ghost sides: { IsTileSide side },
    pub ghost counted: { tiles ≡ tiles_by width height side },
    pub ghost few: { IsWide tiles },
}
