// That these calls answer, of values whose reading is known from the format.
use crate::pair::*;
use area::fault::Fault;
use column::element::*;
use column::kind::*;
use column::run::*;
use read::run::*;
use read::validate::validate;
use storage::store::*;

#[test]
fn pushed_pair_is_level(rt: HostRuntime) -> Result<(), Fault> {
    let mut words = [0u64; 2];
    let mut bytes = [0u8; 2];
    let mut pair = Pair::new(Run::new(&mut words), Run::new(&mut bytes));
    pair.push((5, 7))?;
    pair.level();
    assert_eq!(rt; pair.len(), 1);
    assert_eq!(rt; pair.get(0), Ok((5, 7)));
    Ok(())
}

#[test]
fn pair_inside_a_pair_is_level(rt: HostRuntime) -> Result<(), Fault> {
    let mut words = [0u64; 2];
    let mut bytes = [0u8; 2];
    let mut ends = [0u64; 2];
    let inner = Pair::new(Run::new(&mut words), Run::new(&mut bytes));
    let mut pair = Pair::new(inner, Run::new(&mut ends));
    pair.push(((5, 7), 9))?;
    pair.level();
    pair.first().level();
    assert_eq!(rt; pair.first().get(0), Ok((5, 7)));
    assert_eq!(rt; pair.second().get(0), Ok(9));
    Ok(())
}

#[test]
fn admitted_pair_stands(rt: HostRuntime) -> Result<(), Fault> {
    let words = [24u64, 40, 42, 5, 6, 0x0807];
    let image = validate::<Pair<Run<u64>, Run<u8>>, WordArea>(WordArea::new(&words))?;
    image.standing();
    let view = image.view();
    view.standing();
    assert_eq!(rt; view.len(), 2);
    assert_eq!(rt; view.get(1), Ok((6, 8)));
    Ok(())
}
