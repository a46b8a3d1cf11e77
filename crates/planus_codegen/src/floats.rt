//! Floats as clauses say them: by their bits.

use crate::printer::Printer;
use planus_schema::{Scalar, TableField};
use std::num::{f32_to_bits_with_nan, f64_to_bits_with_nan};

impl<'a> Printer<'a> {
    fn put_float_of_digits(&mut self, scalar: Scalar, digits: &str) {
        let (format, bits) = match scalar {
            Scalar::Float => match digits.parse::<f32>() {
                Ok(x) => ("(of_bits binary32 ", f32_to_bits_with_nan(x) as u64),
                Err(_) => return,
            },
            _ => match digits.parse::<f64>() {
                Ok(x) => ("(of_bits binary64 ", f64_to_bits_with_nan(x)),
                Err(_) => return,
            },
        };
        self.put_str(format);
        self.put_number(bits);
        self.put_char(')');
    }

    /// Adds the default of a field of floats, which is finite, as clauses say it.
    pub(crate) fn put_float_value(&mut self, scalar: Scalar, field: &TableField) {
        let mut code = Printer::new(self.context);
        code.put_float(scalar, field);
        self.fail_as(&code);
        self.put_float_of_digits(scalar, code.as_str());
    }
}
