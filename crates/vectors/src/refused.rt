// Whether an answer is the refusal with a number.
pub fn refused_by<T: Drop, E: Into<u8>>(answer: Result<T, E>, number: u8) -> bool {
    answer.is_err_and(|refusal| refusal.into() == number)
}
