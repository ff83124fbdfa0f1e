ghost use Rattle.std.specs.Prelude.{◌≡◌, ◌<◌, false, IfOk, IfSome};
ghost use Rattle.bl_factor.specs.Vectors.{is_nought};
ghost use Rattle.bl_factor.specs.Sparse.{IsSparse};
ghost use Rattle.bl_factor.specs.Factored.{size_of};

use super::*;
use bl_fixed::from_int;
use std::test::Fail;

// Replaces a column where the pivot is large enough.
fn try_replace(factor: &mut Factor, place: u32, column: &[Fixed; 2]) -> Result<bool, Fail>
    requires size { size_of factor.old ≡ 2 }
    requires place_in { place < 2 }
    ensures { size_of factor.new ≡ 2 }
{
    let mut image = *column;
    factor.solve(&mut image)?;
    if image[place as usize].raw.unsigned_abs() < 1 << 20 {
        return Ok(false);
    }
    factor.replace(place, column)?;
    Ok(true)
}

#[test]
fn exchanges(rt: HostRuntime) -> Result<(), Fail> {
    let mut factor = Factor::identity(rt.alloc(), 2)?;
    let unit = [from_int(1), from_int(0)];
    let mut right = [from_int(0), from_int(1)];
    factor.solve(&mut right)?;
    assert_eq!(rt; right, [from_int(0), from_int(1)]);
    assert!(rt; !try_replace(&mut factor, 0, &right)?);

    assert!(rt; try_replace(&mut factor, 0, &[from_int(2), from_int(0)])?);
    let half = [Fixed { raw: 1 << 39 }, from_int(0)];
    let mut right = unit;
    factor.solve(&mut right)?;
    assert_eq!(rt; right, half);
    let mut right = unit;
    factor.solve_transposed(&mut right)?;
    assert_eq!(rt; right, half);
    Ok(())
}

// A column of two rows with one number.
fn column_with(alloc: Global, place: u32, value: Fixed) -> Result<Vec<Entry>, AllocError>
    requires place_in { place < 2 }
    requires filled { is_nought value ≡ false }
    ensures { IfOk result (λ column. IsSparse 0 2 column.items) }
{
    Ok(vec![in alloc; Entry { place, value }]?)
}

// The matrix of two such columns.
fn two_columns(alloc: Global, places: (u32, u32)) -> Result<Option<Factor>, AllocError>
    requires first { places.0 < 2 }
    requires second { places.1 < 2 }
    ensures { IfOk result (λ made. IfSome made (λ factor. size_of factor ≡ 2)) }
{
    let mut columns = Vec::new(alloc);
    columns.push(Some(column_with(alloc, places.0, Fixed { raw: 1 << 41 })?))?;
    columns.push(Some(column_with(alloc, places.1, Fixed { raw: 1 << 42 })?))?;
    Factor::from_columns(alloc, columns)
}

#[test]
fn columns_at_once(rt: HostRuntime) -> Result<(), Fail> {
    let factor = two_columns(rt.alloc(), (1, 0))?.ok_or("no pivot")?;
    let mut right = [from_int(8), from_int(6)];
    factor.solve(&mut right)?;
    assert_eq!(rt; right, [from_int(3), from_int(2)]);
    assert!(rt; two_columns(rt.alloc(), (1, 1))?.is_none());
    Ok(())
}

// Long enough that the product is made anew.
#[test]
fn many_exchanges(rt: HostRuntime) -> Result<(), Fail> {
    let mut factor = Factor::identity(rt.alloc(), 2)?;
    for turn in 0..250 {
        let place = turn % 2;
        let column = [
            from_int(i64::from(turn % 7) - 3),
            from_int(i64::from(turn % 5) + 1),
        ];
        if try_replace(&mut factor, place, &column)? {
            let mut image = column;
            factor.solve(&mut image)?;
            let ones = [from_int(i64::from(1 - place)), from_int(i64::from(place))];
            assert_eq!(rt; image, ones, "in turn {turn}");
        }
    }
    assert!(rt; factor.etas.len() < 100);
    Ok(())
}
