// Operations that are lent a result buffer and a working buffer. The last two numbers of a request are their lengths.
use replies::Reply;
use requests::Request;
use rules::Refusal;

// The answer to a request, which is lent as much of the buffers as it asks for.
pub fn lend(request: &Request, res: &mut [i32], work: &mut [i32], reply: &mut Reply) {
    let n = request.length(1, res.len());
    let m = request.length(0, work.len());
    answer(request, &mut res[..n], &mut work[..m], reply)
}

// What a call wrote, and whether it left the buffers well; unknown if the operation is none of these.
fn answer(request: &Request, res: &mut [i32], work: &mut [i32], reply: &mut Reply) {
    requests::fill(res);
    requests::fill(work);
    let Some(written) = call(request, res, work) else {
        return reply.word(b"unknown");
    };
    reply.record(written, res);
    reply.unless(requests::left_well(written, work));
}

// What the call that is asked for wrote; nothing if the operation is none of these.
fn call(request: &Request, res: &mut [i32], work: &mut [i32]) -> Option<Result<usize, Refusal>> {
    let (first, second) = (request.list(0), request.list(1));
    let (count, third, fourth) = (request.number(1), request.number(2), request.number(3));
    let operator = request.byte(2);
    match request.operation() {
        19 => Some(layout::broadcast_to_shape(first, second, res, work)),
        20 => Some(layout::broadcast_to_rank(first, count, res, work)),
        22 => Some(layout::union(first, second, res, work)),
        23 => Some(layout::intersect(first, second, res, work)),
        24 => Some(layout::contract_last_axis(first, res, work)),
        25 => Some(layout::permute(first, second, res, work)),
        26 => Some(layout::broadcast(first, count, operator, res, work)),
        27 => Some(layout::concatenate(first, count, third, res, work)),
        28 => Some(layout::filter_deps_from(first, second, third, fourth, res, work)),
        32 => Some(layout::broadcast_to_shape_with_mode(first, second, third, res, work)),
        33 => Some(layout::broadcast_to_rank_with_mode(first, count, third, res, work)),
        34 => Some(layout::broadcast_with_mode(first, count, operator, fourth, res, work)),
        _ => None,
    }
}
