// What holds of triangular grids.
ghost use Rattle.sp_grid_law.specs.Inverses.{InverseLaw};

/// A triangular grid has exactly one inverse, on both sides. It takes and answers nothing: its contract is the theorem.
/// (Lang, Linear Algebra, ch. II)
pub fn inverse_law()
    ensures { InverseLaw }
{}
