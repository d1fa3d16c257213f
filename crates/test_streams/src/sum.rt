// A sum of numbers and the sum of all sums on the way, modulo 2^64: other numbers, or the same in another order, seldom have the same.
#[derive(Clone, Copy)]
pub(crate) struct Sum {
    pub(crate) numbers: u64,
    pub(crate) sums: u64,
}

impl Sum {
    // No numbers yet.
    pub(crate) fn zero() -> Sum {
        Sum {
            numbers: 0,
            sums: 0,
        }
    }

    // With one number more.
    pub(crate) fn number(self, number: u32) -> Sum {
        let numbers = self.numbers.wrapping_add(u64::from(number));
        Sum {
            numbers,
            sums: self.sums.wrapping_add(numbers),
        }
    }

    // With one byte more.
    pub(crate) fn byte(self, byte: u8) -> Sum {
        self.number(u32::from(byte))
    }

    // With more bytes.
    pub(crate) fn bytes(self, more: &[u8]) -> Sum {
        more.iter().fold(self, |sum, byte| sum.byte(*byte))
    }
}
