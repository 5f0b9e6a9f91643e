use super::*;
use arrayvec::ArrayVec;

#[test]
fn copies_every_number(rt: HostRuntime) {
    let mut tables: ArrayVec<Counters, 8> = ArrayVec::new();
    tables.push(Counters {
        loops: 1,
        rows: 3,
        passed: 2,
    });
    tables.push(Counters {
        loops: 2,
        rows: 6,
        passed: 6,
    });
    let report = Report {
        statement: 4,
        steps: 17,
        sent: 6,
        tables,
    };
    let copy = report.copy();
    assert_eq!(rt; (copy.statement, copy.steps, copy.sent), (4, 17, 6));
    assert_eq!(rt; copy.tables.as_slice(), report.tables.as_slice());
    assert_eq!(rt; copy.tables.len(), 2);
}
