/// Lists of each shape but clauses and bindings, with no to five slots.
pub const ROWS: &str = r##"(if)⇒-⇒(if)⏎
(if)⇒R⇒unfit
(if a)⇒L⇒(if a)⏎
(if a)⇒R⇒(if a)⏎
(if a)⇒RR⇒unfit
(if a b)⇒L⇒(if a⏎    b)⏎
(if a b)⇒R⇒(if a b)⏎
(if a b)⇒RR⇒unfit
(if a b c)⇒L⇒(if a⏎    b⏎    c)⏎
(if a b c)⇒R⇒(if a b c)⏎
(if a b c)⇒RR⇒unfit
(if a b c d)⇒L⇒(if a⏎    b⏎    c⏎    d)⏎
(if a b c d)⇒R⇒(if a b c d)⏎
(if a b c d)⇒RR⇒unfit
(quote)⇒-⇒(quote)⏎
(quote)⇒R⇒unfit
(quote a)⇒L⇒(quote⏎ a)⏎
(quote a)⇒R⇒(quote a)⏎
(quote a)⇒RR⇒unfit
(quote a b)⇒L⇒(quote⏎ a⏎ b)⏎
(quote a b)⇒R⇒(quote a b)⏎
(quote a b)⇒RR⇒unfit
(quote a b c)⇒L⇒(quote⏎ a⏎ b⏎ c)⏎
(quote a b c)⇒R⇒(quote a b c)⏎
(quote a b c)⇒RR⇒unfit
(define)⇒-⇒(define)⏎
(define)⇒R⇒unfit
(define a)⇒L⇒(define a)⏎
(define a)⇒R⇒(define a)⏎
(define a)⇒RR⇒unfit
(define a b)⇒L⇒(define a⏎  b)⏎
(define a b)⇒R⇒(define a b)⏎
(define a b)⇒RR⇒unfit
(define a b c)⇒-⇒(define a⏎  b⏎  c)⏎
(define a b c)⇒R⇒unfit
(define (f x) y)⇒LL⇒(define (f⏎         x)⏎  y)⏎
(define (f x) y)⇒LRL⇒(define (f x)⏎  y)⏎
(define (f x) y)⇒RRR⇒(define (f x) y)⏎
(struct)⇒-⇒(struct)⏎
(struct)⇒R⇒unfit
(struct a)⇒L⇒(struct⏎ a)⏎
(struct a)⇒RL⇒(struct a)⏎
(struct a)⇒RR⇒(struct a)⏎
(struct a b)⇒L⇒(struct a b)⏎
(struct a b)⇒RL⇒(struct a⏎        b)⏎
(struct a b)⇒RR⇒(struct a b)⏎
(struct a b c)⇒L⇒(struct a b⏎  c)⏎
(struct a b c)⇒RL⇒(struct a⏎        b⏎  c)⏎
(struct a b c)⇒RR⇒(struct a b c)⏎
(struct a b c d)⇒L⇒(struct a b⏎  c⏎  d)⏎
(struct a b c d)⇒RL⇒(struct a⏎        b⏎  c⏎  d)⏎
(struct a b c d)⇒RR⇒(struct a b c d)⏎
(struct a b c d e)⇒L⇒(struct a b⏎  c⏎  d⏎  e)⏎
(struct a b c d e)⇒R⇒(struct a⏎        b⏎  c⏎  d⏎  e)⏎
(struct a b c d e)⇒RR⇒unfit
(begin)⇒-⇒(begin)⏎
(begin)⇒R⇒unfit
(begin a)⇒-⇒(begin⏎  a)⏎
(begin a)⇒R⇒unfit
(begin a b)⇒-⇒(begin⏎  a⏎  b)⏎
(begin a b)⇒R⇒unfit
(when)⇒-⇒(when)⏎
(when)⇒R⇒unfit
(when a)⇒L⇒(when a)⏎
(when a)⇒R⇒(when a)⏎
(when a)⇒RR⇒unfit
(when a b)⇒-⇒(when a⏎  b)⏎
(when a b)⇒R⇒unfit
(when a b c)⇒-⇒(when a⏎  b⏎  c)⏎
(when a b c)⇒R⇒unfit
(module a)⇒L⇒(module⏎ a)⏎
(module a)⇒RL⇒(module a)⏎
(module a)⇒RR⇒(module a)⏎
(module a b)⇒L⇒(module a b)⏎
(module a b)⇒RL⇒(module a⏎        b)⏎
(module a b)⇒RR⇒(module a b)⏎
(module a b c)⇒L⇒(module a b⏎  c)⏎
(module a b c)⇒R⇒(module a⏎        b⏎  c)⏎
(module a b c)⇒RR⇒unfit
(begin (if a b) (f c))⇒LL⇒(begin⏎  (if a⏎      b)⏎  (f⏎   c))⏎
(begin (if a b) (f c))⇒LRL⇒(begin⏎  (if a⏎      b)⏎  (f c))⏎
(begin (if a b) (f c))⇒RRR⇒(begin⏎  (if a b)⏎  (f c))⏎
(f (define a b))⇒LL⇒(f⏎ (define a⏎   b))⏎
(f (define a b))⇒LR⇒(f⏎ (define a b))⏎
(f (define a b))⇒RRR⇒(f (define a b))⏎"##;
