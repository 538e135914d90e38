// Hexadecimal digits.
ghost use Rattle.std.specs.Prelude.{◌≡◌, ◌<◌, IfSome};
ghost use Rattle.audit_words.specs.Digits.{digit_in, letter_ten, value_in};

/// Which letters the digits from ten on are.
#[derive(Clone, Copy)]
pub enum Letters {
    Lower,
    Upper,
}

impl Letters {
    /// The letter for ten.
    fn ten(self) -> u8
        ensures ten { result ≡ letter_ten self }
    {
        match self {
            Letters::Lower => b'a',
            Letters::Upper => b'A',
        }
    }

    /// The digit of a number below 16.
    pub fn digit(self, n: u8) -> u8
        requires { n < 16 }
        ensures digit { result ≡ digit_in self n }
    {
        if n < 10 {
            b'0' + n
        } else {
            self.ten() - 10 + n
        }
    }

    /// The value of a digit.
    pub fn value(self, c: u8) -> Option<u8>
        ensures value { result ≡ value_in self c }
        ensures small { IfSome result (λ n. n < 16) }
    {
        let ten = self.ten();
        if b'0' <= c && c <= b'9' {
            Some(c - b'0')
        } else if ten <= c && c <= ten + 5 {
            Some(c - (ten - 10))
        } else {
            None
        }
    }
}
