// Settings (Box2D's b2_settings.h).

// 1 unit of length is a metre.
pub const B2_LENGTH_UNITS_PER_METER: f32 = 1.0;

// The most corners of an outline.
pub const B2_MAX_POLYGON_VERTICES: usize = 8;
