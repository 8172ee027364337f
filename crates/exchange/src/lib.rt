// The exchange of lines: the parts of a request read into lent memory, and replies written into a lent buffer.
#![tactic(auto)]

mod replies;
mod requests;

pub use replies::{
    put_answer, put_bound, put_day, put_length, put_lent, put_panel, put_problem, put_refused,
    put_refused_at, put_room, put_script_refused, put_verdict,
};
pub use requests::{Asked, Fact, Head, Lists, asked_at, count_at, head_at, list_at, lists_at};
