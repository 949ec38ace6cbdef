// A row of points in one call, each refusal a `Refusal`.
ghost use Rattle.std.specs.Prelude.{◌≡◌, map};
ghost use Rattle.refusal.specs.Refusals.{told, fault_number};
ghost use Rattle.chain.specs.PointRow.{row_fault_of, row_answers};

use crate::row::{convert_by, prepare};
use crate::{Chain, Direction, Point};
use refusal::Refusal;

// Each point of a lent row by one chain. The first answers are those of `forward` or `inverse` for each point, in order, refused or not; answers past the
// points are left as they were. A row of answers that is too short (Row), or a bad chain, is refused and nothing is written.
pub fn convert_row(
    chain: Chain,
    direction: Direction,
    points: &[Point],
    answers: &mut [Result<Point, Refusal>],
) -> Result<(), Refusal>
    ensures { (fault_number result ≡ row_fault_of chain points.now (map told answers.old))
        × (map told answers.new ≡ row_answers chain direction points.now (map told answers.old)) }
{
    if answers.len() < points.len() {
        return Err(Refusal::Row);
    }
    let mut numbers = [0i64; 72];
    prepare(chain, &mut numbers)?;
    for i in 0..points.len() {
        answers[i] = convert_by(chain.profile, &numbers, direction, points[i]);
    }
    Ok(())
}

#[cfg(test)]
mod tests {
    use super::convert_row;
    use crate::{Chain, Direction, Id, Kind, Label, Point, Position, Realization, Shift, Step};
    use refusal::Refusal;

    // A datum at the epoch 2000.
    fn at(datum: i64) -> Realization {
        Realization {
            datum,
            epoch: 2000000,
        }
    }

    // The point A, of issue 1 and order 1.
    fn point(datum: i64, x: i64, y: i64, z: i64) -> Point {
        Point {
            label: Label {
                id: Id {
                    high: 0x41 << 56,
                    low: 0,
                },
                issue: 1,
                order: 1,
            },
            realization: at(datum),
            position: Position { x, y, z },
        }
    }

    // So many times the shift by 1 km along each axis, of datum 5 to datum 6.
    fn shifts(length: usize) -> Chain {
        let shift = Step {
            kind: Kind::Shift(Shift {
                dx: 100000000,
                dy: 100000000,
                dz: 100000000,
            }),
            before: at(5),
            after: at(6),
        };
        Chain {
            steps: [shift; 8],
            length,
            profile: crate::LATEST,
        }
    }

    // Where an answer is.
    fn placed(answer: Result<Point, Refusal>) -> Result<(i64, i64, i64, i64), Refusal> {
        let p = answer?;
        Ok((
            p.realization.datum,
            p.position.x,
            p.position.y,
            p.position.z,
        ))
    }

    // Of three points the second stays within the area: the others are refused for that, each in its place. What is past them stays.
    #[test]
    fn each_point_has_its_answer(rt: HostRuntime) {
        let points = [
            point(5, -90000000001, 587030289780, 20365233496),
            point(5, -90100000000, 639900000000, 89900000000),
            point(6, -90100000000, 639900000000, 89900000000),
        ];
        let mut answers: [Result<Point, Refusal>; 4] = [Err(Refusal::Ids); 4];
        assert_eq!(rt;
            convert_row(shifts(1), Direction::Forward, &points, &mut answers),
            Ok(())
        );
        assert_eq!(rt; placed(answers[0]), Err(Refusal::Left));
        assert_eq!(rt;
            placed(answers[1]),
            Ok((6, -90000000000, 640000000000, 90000000000))
        );
        assert_eq!(rt; placed(answers[2]), Err(Refusal::Start));
        assert_eq!(rt; placed(answers[3]), Err(Refusal::Ids));
    }

    #[test]
    fn a_row_goes_back(rt: HostRuntime) {
        let points = [point(6, -90000000000, 640000000000, 90000000000)];
        let mut answers: [Result<Point, Refusal>; 1] = [Err(Refusal::Ids)];
        assert_eq!(rt;
            convert_row(shifts(1), Direction::Inverse, &points, &mut answers),
            Ok(())
        );
        assert_eq!(rt;
            placed(answers[0]),
            Ok((5, -90100000000, 639900000000, 89900000000))
        );
    }

    // A row that is too short comes before a bad chain, and neither writes.
    #[test]
    fn a_refused_row_writes_nothing(rt: HostRuntime) {
        let points = [point(5, -90100000000, 639900000000, 89900000000); 2];
        let mut answers: [Result<Point, Refusal>; 2] = [Err(Refusal::Ids); 2];
        assert_eq!(rt;
            convert_row(shifts(9), Direction::Forward, &points, &mut answers[..1]),
            Err(Refusal::Row)
        );
        assert_eq!(rt;
            convert_row(shifts(9), Direction::Forward, &points, &mut answers),
            Err(Refusal::Ninth)
        );
        assert_eq!(rt; placed(answers[0]), Err(Refusal::Ids));
        assert_eq!(rt; placed(answers[1]), Err(Refusal::Ids));
    }
}
