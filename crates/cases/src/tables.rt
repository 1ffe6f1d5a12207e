// What the tests of sources share.
use network::pipe::Pipe;
use network::refused::RefusedLayer;
use network::source::Source;
use std::process::Abort;
use terms::faults::SourceFault;
use terms::measures::Km;

// A distance in km; none where there is none.
pub(crate) struct Row(pub u32, pub u32, pub Option<u32>);

// The source gives the distances of the table.
pub(crate) fn gives<S: Source>(rt: &impl Abort, source: &S, rows: &[Row]) {
    for row in rows {
        let expected = row.2.map(Km);
        assert_eq!(rt; source.distance(row.0, row.1), expected);
        assert_eq!(rt; source.distance(row.1, row.0), expected);
    }
}

pub(crate) fn pipe(from: u32, to: u32, length: u32) -> Pipe {
    Pipe {
        from,
        to,
        length: Km(length),
    }
}

// The fault of a refused layer, where there is one.
pub(crate) fn layer_fault<T: Drop, S: Drop>(
    made: Result<T, RefusedLayer<S>>,
) -> Option<SourceFault> {
    made.err().map(SourceFault::from)
}
