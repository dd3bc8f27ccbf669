// Operations that are lent no buffer.
use replies::Reply;
use requests::Request;

// The answer to a request; unknown if the operation is not there yet.
pub fn answer(request: &Request, reply: &mut Reply) {
    let first = request.list(0);
    match request.operation() {
        1 => reply.tuple(layout::broadcast_shapes(first, request.number(1))),
        2 => reply.test(layout::can_broadcast_to(first, request.list(1))),
        3 => reply.number(layout::ravel_index(first, request.list(1))),
        4 => reply.tuple(layout::unravel_index(request.number(0), request.list(1))),
        5 => reply.comparison(layout::cmp_index(first, request.list(1))),
        7 => reply.place(layout::find_nnz_index(first, request.list(1))),
        8 => reply.number(layout::nnz(first)),
        9 => reply.number(layout::min_rank(first)),
        10 => reply.test(layout::eq_nonzeros(first, request.list(1))),
        11 => reply.test(layout::eq_nonzeros_and_deps(first, request.list(1))),
        29 => reply.flag(layout::sound(first)),
        30 => reply.flag(layout::ordered(first)),
        31 => reply.part(layout::row(first, request.number(1))),
        _ => reply.word(b"unknown"),
    }
}
