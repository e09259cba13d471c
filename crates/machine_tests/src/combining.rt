// What several legs show together.
use layers::Pair;
use legs::Position;
use machine::{Machine, combined_position};
use makes::{Model, Wired};
use std::test::Fail;

// The words of the legs, and what they show together.
const TABLE: [(u16, u16, u16, Position); 10] = [
    (1, 1, 1, Position::Left),
    (2, 2, 2, Position::Right),
    (0, 0, 0, Position::NoEndPosition),
    (4, 4, 4, Position::Trailed),
    (1, 1, 2, Position::NoEndPosition),
    (2, 1, 2, Position::NoEndPosition),
    (1, 0, 1, Position::NoEndPosition),
    (0, 2, 2, Position::NoEndPosition),
    (1, 5, 1, Position::Trailed),
    (0, 2, 7, Position::Trailed),
];

#[test]
fn three_legs_together(rt: HostRuntime) -> Result<(), Fail> {
    let mut three = Pair::new(Wired::new(), Pair::new(Wired::new(), Wired::new()));
    for (first, second, third, together) in TABLE {
        three.read(0, first)?;
        three.read(1, second)?;
        three.read(2, third)?;
        assert_eq!(rt; combined_position(&three), together);
    }
    Ok(())
}

// A sixth leg is not asked, whatever it shows.
#[test]
fn five_legs_and_a_sixth(rt: HostRuntime) -> Result<(), Fail> {
    let five = Pair::new(
        Pair::new(Wired::new(), Wired::new()),
        Pair::new(Wired::new(), Pair::new(Wired::new(), Wired::new())),
    );
    let mut six = Pair::new(five, Model::new(3));
    for leg in 0..5 {
        assert_eq!(rt; combined_position(&six), Position::NoEndPosition);
        six.read(leg, 2)?;
    }
    assert_eq!(rt; combined_position(&six), Position::Right);
    six.read(4, 6)?;
    assert_eq!(rt; combined_position(&six), Position::Trailed);
    Ok(())
}
