// The worked examples, and the values at the bounds.
use crate::{Affine, Capacity, Holder, Permutations, Phases, Soliton};
use exchange::ExchangeMap;
use std::test::Fail;

#[test]
fn moduli(rt: HostRuntime) {
    for (m, unit, made) in [
        (0, 0, false),
        (1, 0, true),
        (65535, 1, true),
        (65536, 1, false),
    ] {
        assert_eq!(rt; Phases::new(m).is_ok(), made);
        assert_eq!(rt; Affine::new(m, unit, 0, unit, 0).is_ok(), made);
    }
}

#[test]
fn holders(rt: HostRuntime) {
    let left = Holder {
        capacity: 3,
        balls: 2,
    };
    let right = Holder {
        capacity: 1,
        balls: 1,
    };
    let crossed = (
        Holder {
            capacity: 1,
            balls: 0,
        },
        Holder {
            capacity: 3,
            balls: 3,
        },
    );
    assert_eq!(rt; Capacity.cross(left, right), crossed);
    for (capacity, balls, belongs) in [
        (0, 0, false),
        (1, 0, true),
        (255, 255, true),
        (254, 255, false),
    ] {
        assert_eq!(rt; Capacity.belongs(Holder { capacity, balls }), belongs);
    }
}

#[test]
fn residues(rt: HostRuntime) -> Result<(), Fail> {
    let map = Affine::new(10, 3, 5, 7, 5)?;
    assert_eq!(rt; map.cross(2, 4), (7, 9));
    assert_eq!(rt; map.uncross(7, 9), (2, 4));
    for (a, b, c, d) in [
        (3, 5, 7, 1),
        (4, 5, 7, 5),
        (3, 5, 5, 5),
        (13, 5, 7, 5),
        (3, 15, 7, 5),
    ] {
        assert!(rt; Affine::new(10, a, b, c, d).is_err());
    }
    Ok(())
}

#[test]
fn permutations(rt: HostRuntime) {
    let x = [1, 0, 2, 3, 4, 5, 6, 7];
    let y = [0, 2, 1, 3, 4, 5, 6, 7];
    let z = [2, 1, 0, 3, 4, 5, 6, 7];
    assert_eq!(rt; Permutations.cross(x, y), (y, z));
    assert_eq!(rt; Permutations.uncross(y, z), (x, y));
    assert_eq!(rt; Permutations.code([7, 6, 5, 4, 3, 2, 1, 0]), 342391);
    assert_eq!(rt; Permutations.code(Permutations.rest()), 16434824);
    assert!(rt; !Permutations.belongs([0, 1, 2, 3, 4, 5, 6, 8]));
    assert!(rt; !Permutations.belongs([0, 1, 2, 3, 4, 5, 6, 6]));
}

#[test]
fn solitons(rt: HostRuntime) -> Result<(), Fail> {
    let map = Phases::new(10)?;
    let left = Soliton { kind: 3, phase: 1 };
    let right = Soliton { kind: 2, phase: 4 };
    let crossed = (Soliton { kind: 2, phase: 8 }, Soliton { kind: 3, phase: 7 });
    assert_eq!(rt; map.cross(left, right), crossed);
    for (kind, phase, belongs) in [(0, 0, false), (255, 9, true), (255, 10, false)] {
        assert_eq!(rt; map.belongs(Soliton { kind, phase }), belongs);
    }
    Ok(())
}
