// Text that is written into a lent buffer. It knows nothing of scenes.
#![tactic(auto)]

mod output;
mod reason;

pub use output::{
    end_line, put, put_bytes, put_decimal, put_error, put_flag, put_number, put_status, put_text,
};
pub use reason::Reason;
