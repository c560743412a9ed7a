//! The running check of a talk.
ghost use Rattle.std.specs.Prelude.{◌≡◌};
ghost use Rattle.rig_port.specs.Checks.{fresh_check, after_byte, after};

/// Two bytes of all that both ends said since the machine was attached: the sum of the bytes, and the sum of these sums.
#[derive(Clone, Copy)]
pub struct Check {
    pub plain: u8,
    pub weighted: u8,
}

impl Check {
    /// As a talk begins.
    pub fn new() -> Check
        ensures { result ≡ fresh_check }
    {
        Check {
            plain: 1,
            weighted: 0,
        }
    }

    // Behind one more byte.
    fn with_byte(self, byte: u8) -> Check
        ensures { result ≡ after_byte self byte }
    {
        let plain = self.plain.wrapping_add(byte);
        Check {
            plain,
            weighted: self.weighted.wrapping_add(plain),
        }
    }

    /// Behind a body.
    pub fn with_body(self, body: &[u8]) -> Check
        ensures { result ≡ after self body.now }
    {
        let mut check = self;
        'bytes: for k in 0..body.len() {
            check = check.with_byte(body[k]);
        }
        check
    }
}
