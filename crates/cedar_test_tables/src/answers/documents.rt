//! Responses as JSON.
use crate::notation::answer::Answer;
use cedar_authorizer::authorizer::{PartialResponse, Response};
use cedar_extensions::Extensions;
use cedar_json_writer::{JsonValue, partial_response_to_json, response_to_json};
use cedar_response_json::whole_response_to_json;
use std::alloc::AllocError;

/// The JSON of the response.
pub fn put_response(answer: &mut Answer, response: &Response) {
    put_document(answer, response_to_json(answer.alloc, response));
}

/// The JSON of the partial response.
pub fn put_partial_response(answer: &mut Answer, response: &PartialResponse) {
    put_document(answer, partial_response_to_json(answer.alloc, response));
}

/// The whole response in JSON, without the names of extensions.
pub fn put_whole_response(answer: &mut Answer, response: &PartialResponse) {
    put_document(
        answer,
        whole_response_to_json(answer.alloc, response, &Extensions::none()),
    );
}

fn put_document(answer: &mut Answer, made: Result<JsonValue, AllocError>) {
    match made {
        Ok(document) => {
            answer.show_made(document.to_text(answer.alloc));
            drop(document);
        }
        Err(_) => answer.lack_memory(),
    }
}
