// Corrections by their numbers, and the worked list of eighteen.
use record_corrections::Correction;
use test_vectors::corrections::with_iod;

// A correction of zeros for a satellite.
pub(crate) fn zeros_for(satellite: u8) -> Correction {
    with_iod(0, 0, satellite, 0, 0, 0)
}

// Entry i: scale i mod 2, UDRE i mod 4, satellite 32 - i, PRC 100 i - 850, RRC i - 9, IOD 11 i.
pub(crate) fn worked() -> [Correction; 18] {
    [
        with_iod(0, 0, 32, -850, -9, 0),
        with_iod(1, 1, 31, -750, -8, 11),
        with_iod(0, 2, 30, -650, -7, 22),
        with_iod(1, 3, 29, -550, -6, 33),
        with_iod(0, 0, 28, -450, -5, 44),
        with_iod(1, 1, 27, -350, -4, 55),
        with_iod(0, 2, 26, -250, -3, 66),
        with_iod(1, 3, 25, -150, -2, 77),
        with_iod(0, 0, 24, -50, -1, 88),
        with_iod(1, 1, 23, 50, 0, 99),
        with_iod(0, 2, 22, 150, 1, 110),
        with_iod(1, 3, 21, 250, 2, 121),
        with_iod(0, 0, 20, 350, 3, 132),
        with_iod(1, 1, 19, 450, 4, 143),
        with_iod(0, 2, 18, 550, 5, 154),
        with_iod(1, 3, 17, 650, 6, 165),
        with_iod(0, 0, 16, 750, 7, 176),
        with_iod(1, 1, 15, 850, 8, 187),
    ]
}
