//! The choice of a painter by its name.
ghost use Rattle.std.specs.Prelude.{◌≡◌, map, position};
ghost use Rattle.std.specs.Str.{bytes_eq};
ghost use Rattle.sp_paint.specs.State.{name_of};

use crate::Painter;

/// The place of the first painter with this name. It takes no memory.
pub fn choose(painters: &[Box<dyn Painter>], name: &[u8]) -> Option<usize>
    ensures { result ≡ position (λ p. bytes_eq (name_of p) name.now) (map (λ b. state b) painters.now) }
{
    for (place, painter) in painters.iter().enumerate() {
        if has_name(painter, name) {
            return Some(place);
        }
    }
    None
}

fn has_name(painter: &Box<dyn Painter>, name: &[u8]) -> bool
    ensures { result ≡ bytes_eq (name_of (state painter.now)) name.now }
{
    painter.name().as_bytes() == name
}
