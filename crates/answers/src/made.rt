// Operations that are lent a result buffer. The last number of a request is its length.
use replies::Reply;
use requests::Request;

// The answer to a request, which is lent as much of the result as it asks for.
pub fn lend(request: &Request, res: &mut [i32], reply: &mut Reply) {
    let n = request.length(0, res.len());
    answer(request, &mut res[..n], reply)
}

// The answer to a request; unknown if the operation is not there yet.
fn answer(request: &Request, res: &mut [i32], reply: &mut Reply) {
    let first = request.list(0);
    requests::fill(res);
    match request.operation() {
        12 => reply.record(layout::to_dense(first, res), res),
        13 => reply.record(layout::new_empty(request.number(0), res), res),
        14 => reply.record(layout::new_scalar(res), res),
        15 => reply.record(layout::dense(first, res), res),
        16 => reply.record(layout::diagonal(first, res), res),
        17 => {
            let count = request.number(1);
            let rows = request.list(2);
            reply.record(layout::sparse(first, count, rows, res), res)
        }
        18 => reply.counted(layout::to_data_layout(first, res), res),
        35 => {
            let count = request.number(1);
            let indices = request.list(2);
            reply.counted(layout::find_nnz_indices(first, count, indices, res), res)
        }
        _ => reply.word(b"unknown"),
    }
}
