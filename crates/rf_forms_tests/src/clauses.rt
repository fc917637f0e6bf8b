/// Clauses and bindings, with no to four slots.
pub const ROWS: &str = r##"(cond)⇒-⇒(cond)⏎
(cond)⇒R⇒unfit
(cond a)⇒-⇒(cond⏎  a)⏎
(cond a)⇒R⇒unfit
(cond [a b])⇒L⇒(cond⏎  [a⏎   b])⏎
(cond [a b])⇒R⇒(cond⏎  [a b])⏎
(cond [a b])⇒RR⇒unfit
(cond [if a b] [c])⇒L⇒(cond⏎  [if⏎   a⏎   b]⏎  [c])⏎
(cond [if a b] [c])⇒R⇒(cond⏎  [if a b]⏎  [c])⏎
(cond [if a b] [c])⇒RR⇒unfit
(cond (if a b))⇒L⇒(cond⏎  (if⏎   a⏎   b))⏎
(cond (if a b))⇒R⇒(cond⏎  (if a b))⏎
(cond (if a b))⇒RR⇒unfit
(cond #:k (if a b c))⇒L⇒(cond⏎  #:k (if a⏎          b⏎          c))⏎
(cond #:k (if a b c))⇒R⇒(cond⏎  #:k (if a b c))⏎
(cond #:k (if a b c))⇒RR⇒unfit
(cond #(if a b))⇒L⇒(cond⏎  #(if⏎    a⏎    b))⏎
(cond #(if a b))⇒R⇒(cond⏎  #(if a b))⏎
(cond #(if a b))⇒RR⇒unfit
(cond [(if a b) c])⇒LL⇒(cond⏎  [(if a⏎       b)⏎   c])⏎
(cond [(if a b) c])⇒LR⇒(cond⏎  [(if a b)⏎   c])⏎
(cond [(if a b) c])⇒RR⇒(cond⏎  [(if a b) c])⏎
(match)⇒-⇒(match)⏎
(match)⇒R⇒unfit
(match a)⇒L⇒(match a)⏎
(match a)⇒R⇒(match a)⏎
(match a)⇒RR⇒unfit
(match a [b c])⇒L⇒(match a⏎  [b⏎   c])⏎
(match a [b c])⇒R⇒(match a⏎  [b c])⏎
(match a [b c])⇒RR⇒unfit
(match (if a b) [c d])⇒LL⇒(match (if a⏎           b)⏎  [c⏎   d])⏎
(match (if a b) [c d])⇒LR⇒(match (if a⏎           b)⏎  [c d])⏎
(match (if a b) [c d])⇒RR⇒(match (if a b)⏎  [c d])⏎
(syntax-case a)⇒L⇒(syntax-case⏎ a)⏎
(syntax-case a)⇒RL⇒(syntax-case a)⏎
(syntax-case a)⇒RR⇒(syntax-case a)⏎
(syntax-case a b)⇒L⇒(syntax-case a b)⏎
(syntax-case a b)⇒RL⇒(syntax-case a⏎             b)⏎
(syntax-case a b)⇒RR⇒(syntax-case a b)⏎
(syntax-case a b [c d])⇒LL⇒(syntax-case a b⏎  [c⏎   d])⏎
(syntax-case a b [c d])⇒LR⇒(syntax-case a b⏎  [c d])⏎
(syntax-case a b [c d])⇒RR⇒(syntax-case a⏎             b⏎  [c d])⏎
(let)⇒-⇒(let)⏎
(let)⇒R⇒unfit
(let a)⇒L⇒(let⏎ a)⏎
(let a)⇒RL⇒(let a)⏎
(let a)⇒RR⇒(let a)⏎
(let a b)⇒L⇒(let a b)⏎
(let a b)⇒RL⇒(let a⏎     b)⏎
(let a b)⇒RR⇒(let a b)⏎
(let a b c)⇒L⇒(let a b⏎  c)⏎
(let a b c)⇒R⇒(let a⏎     b⏎  c)⏎
(let a b c)⇒RR⇒unfit
(let ([if a]) b)⇒L⇒(let ([if⏎       a])⏎  b)⏎
(let ([if a]) b)⇒R⇒(let ([if a])⏎  b)⏎
(let ([if a]) b)⇒RR⇒unfit
(let ([a b] [if c]) d)⇒LLL⇒(let ([a⏎       b]⏎      [if⏎       c])⏎  d)⏎
(let ([a b] [if c]) d)⇒LLR⇒(let ([a⏎       b]⏎      [if c])⏎  d)⏎
(let ([a b] [if c]) d)⇒RRR⇒(let ([a b] [if c])⏎  d)⏎
(let a ([if b]) c)⇒LL⇒(let a ([if⏎         b])⏎  c)⏎
(let a ([if b]) c)⇒LR⇒(let a ([if b])⏎  c)⏎
(let a ([if b]) c)⇒RR⇒(let a⏎     ([if b])⏎  c)⏎
(let a (if b c))⇒LL⇒(let a (if⏎        b⏎        c))⏎
(let a (if b c))⇒LR⇒(let a (if b c))⏎
(let a (if b c))⇒RRR⇒(let a (if b c))⏎
(let a (if b c) d)⇒LL⇒(let a (if⏎        b⏎        c)⏎  d)⏎
(let a (if b c) d)⇒LR⇒(let a (if b c)⏎  d)⏎
(let a (if b c) d)⇒RR⇒(let a⏎     (if b c)⏎  d)⏎
(let (if a b) c)⇒L⇒(let (if⏎      a⏎      b)⏎  c)⏎
(let (if a b) c)⇒R⇒(let (if a b)⏎  c)⏎
(let (if a b) c)⇒RR⇒unfit
(let #(if a) b)⇒L⇒(let #(if⏎       a)⏎  b)⏎
(let #(if a) b)⇒R⇒(let #(if a)⏎  b)⏎
(let #(if a) b)⇒RR⇒unfit
(let #:k (if a b) c)⇒L⇒(let #:k (if a⏎             b)⏎  c)⏎
(let #:k (if a b) c)⇒R⇒(let #:k (if a b)⏎  c)⏎
(let #:k (if a b) c)⇒RR⇒unfit
(let "a" b)⇒-⇒(let "a"⏎  b)⏎
(let "a" b)⇒R⇒unfit
(for/fold a)⇒L⇒(for/fold⏎ a)⏎
(for/fold a)⇒RL⇒(for/fold a)⏎
(for/fold a)⇒RR⇒(for/fold a)⏎
(for/fold ([a b]) ([if c]) d)⇒LLL⇒(for/fold ([a⏎            b]) ([if⏎                  c])⏎  d)⏎
(for/fold ([a b]) ([if c]) d)⇒LLR⇒(for/fold ([a⏎            b]) ([if c])⏎  d)⏎
(for/fold ([a b]) ([if c]) d)⇒RRRR⇒(for/fold ([a b])⏎          ([if c])⏎  d)⏎
(let () a)⇒-⇒(let ()⏎  a)⏎
(let () a)⇒R⇒unfit
(let ([a (let ([b c]) d)]) e)⇒LL⇒(let ([a⏎       (let ([b⏎              c])⏎         d)])⏎  e)⏎
(let ([a (let ([b c]) d)]) e)⇒LR⇒(let ([a⏎       (let ([b c])⏎         d)])⏎  e)⏎
(let ([a (let ([b c]) d)]) e)⇒R⇒unfit"##;
