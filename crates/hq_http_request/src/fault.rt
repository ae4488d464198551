/// What a request is answered with that gets no reply of its own.
#[derive(Clone, Copy)]
pub enum Fault {
    BadRequest,
    Denied,
    NotFound,
    NotAllowed,
    LengthRequired,
    BodyTooLarge,
    HeadTooLarge,
    Failed,
    Unavailable,
}
