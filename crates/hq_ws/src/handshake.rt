use http::header::{HeaderName, HeaderValue};
use http::{Request, Response, StatusCode};
use std::alloc::Global;
use tungstenite::Callback;
use tungstenite::handshake::server::ErrorResponse;

// The subprotocol of live queries: the GraphQL over WebSocket protocol.
const PROTOCOL: &str = "graphql-transport-ws";

const HEADER: &str = "sec-websocket-protocol";

/// Names the subprotocol where the client offers it: a server may select none that was not offered (RFC 6455, 4.2.2).
#[derive(Clone, Copy, Debug, Drop)]
pub struct Subprotocol {
    pub alloc: Global,
}

impl Callback for Subprotocol {
    /// Refuses a request for want of memory alone.
    fn on_request(
        self,
        request: &Request<()>,
        mut response: Response<()>,
    ) -> Result<Response<()>, ErrorResponse> {
        if !offers(request) {
            return Ok(response);
        }
        let name = HeaderName::from_static(HEADER);
        let value = HeaderValue::from_static(PROTOCOL);
        if response.headers_mut().insert(name, value).is_err() {
            let mut refused = Response::new(self.alloc, None);
            *refused.status_mut() = StatusCode::SERVICE_UNAVAILABLE;
            return Err(refused);
        }
        Ok(response)
    }
}

// Whether the client offers the subprotocol.
fn offers(request: &Request<()>) -> bool {
    match request.headers().get(HEADER) {
        Some(value) => value
            .as_bytes()
            .split(|byte| *byte == b',')
            .any(|part| part.trim_ascii() == PROTOCOL.as_bytes()),
        None => false,
    }
}
