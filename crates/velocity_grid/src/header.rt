// A grid's header: its ranges, and the faults that it and the count of numbers decide.
ghost use Rattle.std.specs.Prelude.{◌≡◌, true, ◌*◌, ◌≤◌, pos, nat_abs, ◌*ℤ◌};
ghost use Rattle.velocity_grid.specs.OnGrid.{size_range, mesh_range, grid_range};

use line::GridHeader;

// Units of 0.00001" in a minute.
const MINUTE: i64 = 6000000;

// Whether rows and columns are 2 or more each, and their product is at most 4,000. Neither passes 2,000 then, so the product is taken of small numbers alone.
fn size_in_range(rows: i64, columns: i64) -> bool
    ensures { result ≡ size_range rows columns }
{
    if !(ranges::within(2, rows, 2000) & ranges::within(2, columns, 2000)) {
        return false;
    }
    rows * columns <= 4000
}

// Minutes: 5 or 10.
fn is_mesh(m: i64) -> bool
    ensures { result ≡ mesh_range m }
{
    ranges::equal(5, m) | ranges::equal(10, m)
}

// Whether a header's numbers are in their ranges.
pub(crate) fn in_range(g: GridHeader) -> bool
    ensures { result ≡ grid_range g }
{
    ranges::is_latitude(g.latitude)
        & ranges::is_longitude(g.longitude)
        & size_in_range(g.rows, g.columns)
        & is_mesh(g.mesh)
}

// How many nodes a grid has.
pub(crate) fn nodes(rows: i64, columns: i64) -> usize
    requires { size_range rows columns ≡ true }
    ensures { (result ≡ nat_abs rows * nat_abs columns) × (result ≤ 4000) }
{
    rows as usize * columns as usize
}

// How many numbers they have, three each.
pub(crate) fn count(rows: i64, columns: i64) -> usize
    requires { size_range rows columns ≡ true }
    ensures { result ≡ 3 * (nat_abs rows * nat_abs columns) }
{
    3 * nodes(rows, columns)
}

// A mesh of 5 or 10 minutes, in units of 0.00001".
pub(crate) fn mesh_units(m: i64) -> i64
    requires { mesh_range m ≡ true }
    ensures { result ≡ m *ℤ pos 6000000 }
{
    m * MINUTE
}
