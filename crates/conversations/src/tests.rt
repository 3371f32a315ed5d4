mod engine_calls;
mod model_types;
mod replies;
